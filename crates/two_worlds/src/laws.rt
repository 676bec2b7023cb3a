//! What holds of every operation in two Worlds that agree, of the items that it does not touch, of their views, and along
//! the requests of one user. The functions do nothing; their contracts are the laws.

ghost use Rattle.two_worlds.specs.Along.{TwoWorldsAlong};
ghost use Rattle.two_worlds.specs.Laws.{TwoWorlds, Undisturbed};
ghost use Rattle.two_worlds.specs.Local.{AgreementIsLocal, DeniedIsOutside};
ghost use Rattle.two_worlds.specs.Premises.{PremisesAreMet};
ghost use Rattle.two_worlds.specs.Views.{MissingIsNothing, ViewsGoByTurn};

/// Two banks that agree on the row of a user, on the user's triples and the relations of a procedure with their sets,
/// on the release that is named and who gave it, on the slip that is named and how many the user has, and on the views
/// of the items that an operation touches, reply to it alike, repeats and reports with their texts, and agree on all of
/// this again afterwards. In each of them the views of all other items stay, and so do the policy, every release but
/// the one that is used or given, and every slip but a new one of the user's. A denial by a rule before that on
/// releases is the same whatever the items are. What is no operation leaves every item.
pub fn two_worlds()
    ensures { TwoWorlds }
{}

/// Two banks that agree so for each of the operations and sessions of one user, or by whose policy the user's triples
/// deny it whatever the items are, reply to all of them alike, one after another.
pub fn two_worlds_along()
    ensures { TwoWorldsAlong }
{}

/// An operation leaves the reply to another that touches none of its items, names no release that it uses or gives, and bears
/// no slip where it bears one of the same user.
pub fn undisturbed()
    ensures { Undisturbed }
{}

/// Agreement asks for no more than it names. A bank agrees with what it was where it has one more account, which the operation does
/// not touch, nor its home, and which the user does not list; one more user who has no part in it; one more triple of another user
/// or for another procedure; one more relation of another procedure.
pub fn agreement_is_local()
    ensures { AgreementIsLocal }
{}

/// Who is denied by relations, by triples or by their limit asks for what is outside of them.
pub fn denied_is_outside()
    ensures { DeniedIsOutside }
{}

/// Nothing is said of an item that is not there.
pub fn missing_is_nothing()
    ensures { MissingIsNothing }
{}

/// The views of an account in two banks are the same exactly where its row and its entries by turn are.
pub fn views_go_by_turn()
    ensures { ViewsGoByTurn }
{}

/// What the laws above suppose is met by what it is named for. Each release is another than those used and given that is of a user who
/// neither asks nor is given one, or has another number. The rules that look at no item are the first five; sessions, commands and the
/// listing are no operations. Accounts, users and triples that an operation does not name have no part in it. Two banks agree on a
/// request where they agree for its operation, or it is outside; on a session where the row of its user is the same.
pub fn premises_are_met()
    ensures { PremisesAreMet }
{}
