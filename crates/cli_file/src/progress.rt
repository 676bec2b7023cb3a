//! The steps of a long action, shown at a terminal.

use exit_lines::tell;
use money::Tallied;
use std::io::Write;
use std::marker::Model;

/// Shows a person at a terminal how far an action is. Nothing is shown where no terminal is.
#[derive(Drop)]
pub struct Progress<W: Write + Drop> {
    terminal: Option<Tallied<W>>,
}

impl<W: Write + Drop> Model for Progress<W> {
    ghost use Rattle.std.specs.Prelude.{Option};
    ghost use Rattle.money.specs.declared.tallied.Tallied.{Tallied as TheTallied};

    ghost Value = { Option (TheTallied W) };

    ghost view = { λ p. p.terminal };
}

impl<W: Write + Drop> Progress<W> {
    ghost use Rattle.cli_file.specs.Progress.{IsShownOn, ShowsStep};

    /// Progress that is shown on this terminal, or to nobody where there is none.
    pub fn on(terminal: Option<W>) -> Progress<W>
        ensures { IsShownOn terminal result }
    {
        match terminal {
            Some(terminal) => Progress {
                terminal: Some(Tallied::new(terminal)),
            },
            None => Progress { terminal: None },
        }
    }

    /// Shows that a step begins, by this line. What can't be written of that is left out.
    pub fn begin(&mut self, line: &str)
        ensures { ShowsStep W.contents self.old self.new line.now }
    {
        if let Some(terminal) = &mut self.terminal {
            tell(terminal, line);
        }
    }
}
