//! The table of paths: what a method and a target ask for.

ghost use Rattle.std.specs.Prelude.{◌≡◌, [], ◌++◌, ℕ, List, None, IsOkAnd, OnOk, option_map};
ghost use Rattle.matchit.specs.Seek.{first};
ghost use Rattle.matchit.specs.Route.{parse_route};
ghost use Rattle.matchit.specs.Order.{placed};
ghost use Rattle.matchit.specs.Router.{nearest, route_from};
ghost use Rattle.requests.specs.Routes.{asked_route, command_paths, operation_paths, read_at, route_at};
ghost use Rattle.requests.specs.RouterRows.{router_rows};

use bank_terms::Procedure;
use http::Method;
use matchit::{InsertError, Router};
use policy_commands::Command;
use std::alloc::{AllocError, Global};
use std::str;

/// What a path asks for.
#[derive(Clone, Copy, Debug, PartialEq, Eq)]
pub enum Route {
    /// An operation of a procedure.
    Operation(Procedure),
    /// The opening of a session.
    Opening,
    /// The ending of a session.
    Ending,
    /// A command of the policy.
    Policy(Command),
    /// The listing of the policy.
    Listing,
}

/// The paths that are served: the router answers each path by the table of paths.
#[derive(Drop)]
pub struct Routes {
    paths: Router<Route>,
    ghost table: { (path : List ℕ) → option_map (λ route. route.value) (first paths path) ≡ route_at path },
}

impl Routes {
    /// All paths. Only memory keeps them from it: no two of them conflict.
    #[tactic(auto, unfolding(matchit::proofs::OnLiterals::matchit_on_literals))]
    pub fn new(alloc: Global) -> Result<Routes, AllocError> {
        let mut paths = Router::new(alloc);
        add_operations(&mut paths)?;
        add_commands(&mut paths)?;
        add(&mut paths, "/end", Route::Ending)?;
        add(&mut paths, "/session", Route::Opening)?;
        Ok(Routes { paths })
    }

    /// What a method and a target ask for, or none where they ask for nothing: exactly POST, in
    /// capitals, and exactly a path of the table, with no query; or exactly GET, and the path of the
    /// listing.
    pub fn route(&self, method: &[u8], target: &[u8]) -> Option<Route>
        ensures { result ≡ asked_route method.now target.now }
    {
        if method == Method::POST.as_str().as_bytes() {
            self.posted(target)
        } else if method == Method::GET.as_str().as_bytes() {
            read_at(target)
        } else {
            None
        }
    }

    /// What a target asks for by POST.
    fn posted(&self, target: &[u8]) -> Option<Route>
        ensures { result ≡ route_at target.now }
    {
        let path = str::from_utf8(target).ok()?;
        let found = self.paths.at(path).ok()?;
        Some(*found.value)
    }
}

/// What a target asks for by GET.
fn read_at(target: &[u8]) -> Option<Route>
    ensures { result ≡ read_at target.now }
{
    if target == b"/policy".as_slice() {
        Some(Route::Listing)
    } else {
        None
    }
}

/// Adds the paths of all operations, to no others.
#[tactic(auto, unfolding(matchit::proofs::OnLiterals::matchit_on_literals))]
fn add_operations(paths: &mut Router<Route>) -> Result<(), AllocError>
    requires { paths.old ≡ [] }
    ensures { OnOk result (paths.new ≡ router_rows operation_paths) }
{
    add_operation(paths, "/do/post", Procedure::Post)?;
    add_operation(paths, "/do/transfer", Procedure::Transfer)?;
    add_operation(paths, "/do/correct", Procedure::Correct)?;
    add_operation(paths, "/do/drawer-on", Procedure::DrawerOn)?;
    add_operation(paths, "/do/drawer-off", Procedure::DrawerOff)?;
    add_operation(paths, "/do/move-cash", Procedure::MoveCash)?;
    add_operation(paths, "/do/new-account", Procedure::NewAccount)?;
    add_operation(paths, "/do/release", Procedure::Release)?;
    add_operation(paths, "/do/balance", Procedure::Balance)?;
    add_operation(paths, "/do/statement", Procedure::Statement)?;
    add_operation(paths, "/do/accounts", Procedure::Accounts)?;
    add_operation(paths, "/do/proof", Procedure::Proof)?;
    add_operation(paths, "/do/close-day", Procedure::CloseDay)
}

/// Adds the paths of all commands of the policy to those of the operations.
#[tactic(auto, unfolding(matchit::proofs::OnLiterals::matchit_on_literals))]
fn add_commands(paths: &mut Router<Route>) -> Result<(), AllocError>
    requires { paths.old ≡ router_rows operation_paths }
    ensures { OnOk result (paths.new ≡ router_rows (operation_paths ++ command_paths)) }
{
    add_command(paths, "/policy/define-set", Command::DefineSet)?;
    add_command(paths, "/policy/certify", Command::Certify)?;
    add_command(paths, "/policy/withdraw", Command::Withdraw)?;
    add_command(paths, "/policy/grant", Command::Grant)?;
    add_command(paths, "/policy/revoke", Command::Revoke)?;
    add_command(paths, "/policy/appoint", Command::Appoint)?;
    add_command(paths, "/policy/dismiss", Command::Dismiss)?;
    add_command(paths, "/policy/enrol", Command::Enrol)?;
    add_command(paths, "/policy/suspend", Command::Suspend)?;
    add_command(paths, "/policy/restore", Command::Restore)
}

/// Adds the path of the operations of a procedure, which conflicts with none that is there.
fn add_operation(
    paths: &mut Router<Route>,
    path: &str,
    procedure: Procedure,
) -> Result<(), AllocError>
    requires { IsOkAnd (parse_route path.now) (λ read. nearest read.pattern paths.old ≡ None) }
    ensures { OnOk result (IsOkAnd (parse_route path.now) (λ read. paths.new ≡ placed (read.pattern, route_from read (Route.Operation procedure)) paths.old)) }
{
    add(paths, path, Route::Operation(procedure))
}

/// Adds the path of a command of the policy, which conflicts with none that is there.
fn add_command(paths: &mut Router<Route>, path: &str, command: Command) -> Result<(), AllocError>
    requires { IsOkAnd (parse_route path.now) (λ read. nearest read.pattern paths.old ≡ None) }
    ensures { OnOk result (IsOkAnd (parse_route path.now) (λ read. paths.new ≡ placed (read.pattern, route_from read (Route.Policy command)) paths.old)) }
{
    add(paths, path, Route::Policy(command))
}

/// Adds a path that conflicts with none that is there, so that it is refused for want of memory alone.
fn add(paths: &mut Router<Route>, path: &str, route: Route) -> Result<(), AllocError>
    requires { IsOkAnd (parse_route path.now) (λ read. nearest read.pattern paths.old ≡ None) }
    ensures { OnOk result (IsOkAnd (parse_route path.now) (λ read. paths.new ≡ placed (read.pattern, route_from read route) paths.old)) }
{
    match paths.insert(path, route) {
        Ok(()) => Ok(()),
        Err(InsertError::OutOfMemory) => Err(AllocError),
        Err(_) => unreachable!(),
    }
}
