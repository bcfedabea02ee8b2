// Judging one command after another, by specs/Judging.antt.
ghost use Rattle.std.specs.Prelude.{◌≡◌, ◌+◌, min, Ok, Err, MatchResult, ◌≢◌};
ghost use Rattle.std.specs.Option.{option_to_list};
ghost use Rattle.format.specs.declared.command.PatternCommand.{PatternCommand as Cmd};
ghost use Rattle.format.specs.declared.fault.PatternFault.TheVariants.{NotOnePart};
ghost use Rattle.format.specs.Commands.{PatternOperands};
ghost use Rattle.format.specs.Entries.{entry_of, entry_command};
ghost use Rattle.pattern.specs.Judging.{start, after, admission, checked};
ghost use Rattle.pattern.specs.Listed.{listed};
ghost use Rattle.pattern.specs.Positions.{new_position};
ghost use Rattle.pattern.specs.Stands.{stands};

use crate::judge::{Judge, MAX_COMMANDS};
use crate::position::Position;
use crate::positions::Positions;
use format::command::PatternCommand;
use format::entry::Entry;
use format::fault::PatternFault;

impl Judge {
    // No command yet, and a table of `room` entries.
    pub(crate) fn new(room: usize) -> Judge
        ensures stands { stands result ≡ start }
        ensures free { result.free ≡ min room 512 }
    {
        Judge {
            free: room.min(MAX_COMMANDS),
            pending: 0,
            positions: Positions::new(),
        }
    }

    // The next command, which stands at the place `at`. One that is refused changes nothing.
    pub(crate) fn admit(&mut self, command: PatternCommand, at: usize) -> Result<(), PatternFault>
        ensures { MatchResult result
            (λ _. (admission self.old.free at (stands self.old) command ≡ Ok command)
            × (stands self.new ≡ after (stands self.old) command)
            × (self.old.free ≡ self.new.free + 1))
            (λ f. (admission self.old.free at (stands self.old) command ≡ Err f) × (self.new ≡ self.old)) }
    {
        let new = self.check(command, at)?;
        self.positions.add(new);
        self.pending = self.pending - command.takes() + 1;
        self.free -= 1;
        Ok(())
    }

    // The next entry of a table, whose number is `at`, by the command that it stands for.
    pub(crate) fn admit_entry(&mut self, entry: Entry, at: usize) -> Result<(), PatternFault>
        ensures { MatchResult result
            (λ _. (c : Cmd)
            × PatternOperands c
            × (entry ≡ entry_of c)
            × (entry_command at entry ≡ Ok c)
            × (admission self.old.free at (stands self.old) c ≡ Ok c)
            × (stands self.new ≡ after (stands self.old) c)
            × (self.old.free ≡ self.new.free + 1))
            (λ f. checked (entry_command at entry) (admission self.old.free at (stands self.old)) ≡ Err f) }
    {
        let command = entry.command(at)?;
        self.admit(command, at)
    }

    // The position that the command adds, or why it is not in order.
    fn check(&self, command: PatternCommand, at: usize) -> Result<Option<Position>, PatternFault>
        ensures { MatchResult result
            (λ new. (admission self.now.free at (stands self.now) command ≡ Ok command)
            × (option_to_list new ≡ new_position command (listed self.now.positions)))
            (λ f. admission self.now.free at (stands self.now) command ≡ Err f) }
    {
        if self.pending < command.takes() {
            return Err(PatternFault::PartsMissing { at });
        }
        let new = self.positions.new_position(command);
        if !self.positions.has_room(new) {
            return Err(PatternFault::PositionsFull { at });
        }
        if self.free == 0 {
            return Err(PatternFault::TableFull { at });
        }
        Ok(new)
    }

    // The end of the pattern, at the place `at`: one part is pending.
    pub(crate) fn finish(&self, at: usize) -> Result<(), PatternFault>
        ensures { MatchResult result
            (λ _. (stands self.now).pending ≡ 1)
            (λ f. ((stands self.now).pending ≢ 1) × (f ≡ NotOnePart at (stands self.now).pending)) }
    {
        if self.pending == 1 {
            return Ok(());
        }
        Err(PatternFault::NotOnePart {
            at,
            pending: self.pending,
        })
    }

    // The positions that the commands have named.
    pub fn positions(&self) -> &[Position]
        ensures { result.now ≡ (stands self.now).positions }
    {
        self.positions.as_slice()
    }
}
