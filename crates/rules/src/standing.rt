// The standing of a circuit is all that the choice asks of it: whether it is held, whether it is reserved, whether its holder may lose it,
// and the mark that stands.
ghost use Rattle.std.specs.Prelude.{◌≡◌, ◌+◌, ◌*◌, not, ◌&&◌, ◌||◌, if◌then◌else◌};
ghost use Rattle.rules.specs.Fields.{level_ok};
ghost use Rattle.rules.specs.Circuit.{outranks};

use crate::level::Level;
use crate::mark::Mark;

#[derive(Clone, Copy)]
pub struct Standing {
    pub held: bool,
    pub reserved: bool,
    pub preemptable: bool,
    pub mark: Mark,
}

impl Standing {
    // Tells whether a circuit with these flags is free.
    pub fn free(held: bool, reserved: bool) -> bool
        ensures { result ≡ not held && not reserved }
    {
        !held && !reserved
    }

    // Tells whether a circuit may be lost by its holder, who stands under this level, if it is held: one under no precedence keeps it, and so
    // does one that rings.
    pub fn preemptable(held: bool, level: Level, ringing: bool) -> bool
        ensures { result ≡ not held || (level_ok level.0 && not ringing) }
    {
        if !held {
            return true;
        }
        level.known() && !ringing
    }

    // Says how gladly a call takes a circuit under this level, if it is takeable: the level number counts first, then that there is no holder.
    pub fn worth(held: bool, level: Level) -> usize
        ensures { result ≡ 1 + 2 * level.0 + (if held then 0 else 1) }
    {
        let number = usize::from(level.0);
        if held { 1 + 2 * number } else { 2 + 2 * number }
    }

    // Gives the mark that a call has to outrank.
    pub fn standing(self) -> Mark
        ensures { result ≡ self.mark }
    {
        self.mark
    }

    pub fn takeable(self, by: Mark) -> bool
        ensures { result ≡ not (not self.held && not self.reserved) && (self.preemptable && outranks by self.mark) }
    {
        if Standing::free(self.held, self.reserved) {
            return false;
        }
        self.preemptable && by.outranks(self.standing())
    }
}
