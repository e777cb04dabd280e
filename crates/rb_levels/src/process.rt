//! The processes of a plain run, with their open levels. Of a level only what later turns ask for is kept: the lengths of the sent
//! lists, the numbers taken, and the variables at its entry. Nothing is ever put back.

ghost use Rattle.std.specs.Prelude.{◌≡◌, ◌&&◌, map, nat_le, nat_lt, option_map};
ghost use Rattle.rb_syntax.specs.Plain.{tree};
ghost use Rattle.rb_world.specs.World.{copy_of, last_of, settled, without_last};
ghost use Rattle.rb_world.specs.Turn.{freed, lines_freed, stands_at};
ghost use Rattle.rb_world.specs.Plain.{alternates_of};
ghost use Rattle.rb_meaning.specs.PlainRun.{environment_at};
ghost use Rattle.rb_walk.specs.States.{state_of};
ghost use Rattle.rb_levels.specs.Worlds.{is_nothing_left, level_of, process_of, unkept_kind};

use rb_syntax::{Program, Recovery};
use rb_walk::items::First;
use rb_walk::{Environment, State};

/// An open level: its recovery block, the number of its conversation if it has one, and what stood at its entry.
#[derive(Drop)]
pub struct Level<'t, 'a> {
    pub block: &'t Recovery<'a>,
    pub conversation: Option<usize>,
    pub sent: Vec<usize>,
    pub taken: Vec<usize>,
    pub environment: Environment<'a>,
}

/// A process: its state, its open levels from the outside in, whether it stands at the test line of the innermost, and whether it is
/// done.
#[derive(Drop)]
pub struct Process<'t, 'a> {
    pub state: State<'t, 'a>,
    pub levels: Vec<Level<'t, 'a>>,
    pub at_line: bool,
    pub is_done: bool,
}

impl<'t, 'a> Level<'t, 'a> {
    // How many alternates its recovery block has.
    fn alternates(&self) -> usize
        ensures { result ≡ (level_of self.now).facts.alternates }
    {
        self.block.alternates.len()
    }
}

impl<'t, 'a> Process<'t, 'a> {
    /// Goes on from its state: ends of blocks and calls that stand first are taken away, and it is done if nothing is left.
    pub fn settle(&mut self, program: &Program<'a>)
        ensures { process_of self.new ≡ settled (unkept_kind (tree program.now)) (state_of self.old.state) (map level_of self.old.levels.items) }
    {
        let _ = program;
        self.state.settle();
        self.at_line = false;
        self.is_done = is_nothing(self.state.first());
    }

    /// Its innermost level, if one is open.
    pub fn innermost(&self) -> Option<&Level<'t, 'a>>
        ensures { option_map (λ level. level_of level.now) result ≡ last_of (map level_of self.now.levels.items) }
    {
        self.levels.last()
    }

    /// The variables at the innermost recovery point, if a level is open.
    pub(crate) fn prior(&self) -> Option<&Environment<'a>>
        ensures { option_map (λ e. e.now) result ≡ environment_at (copy_of (last_of (map level_of self.now.levels.items))) }
    {
        match self.innermost() {
            Some(level) => Some(&level.environment),
            None => None,
        }
    }

    /// How many alternates the innermost recovery block has; none without a level.
    pub fn alternates(&self) -> usize
        ensures { result ≡ alternates_of (last_of (map level_of self.now.levels.items)) }
    {
        match self.innermost() {
            Some(level) => level.alternates(),
            None => 0,
        }
    }

    /// Whether the innermost recovery block has this alternate, counted from 1.
    pub fn has_alternate(&self, alternate: u32) -> bool
        ensures { result ≡ nat_lt 0 alternate && nat_le alternate (alternates_of (last_of (map level_of self.now.levels.items))) }
    {
        0 < alternate && alternate as usize <= self.alternates()
    }

    /// Whether it stands at the test line of this conversation.
    pub fn stands_at(&self, conversation: usize) -> bool
        ensures { result ≡ stands_at conversation (process_of self.now) }
    {
        match self.innermost() {
            Some(level) => self.at_line && level.conversation == Some(conversation),
            None => false,
        }
    }

    /// Its innermost level goes, and it goes on.
    pub fn leave(&mut self, program: &Program<'a>)
        ensures { process_of self.new
            ≡ settled (unkept_kind (tree program.now)) (state_of self.old.state) (without_last (map level_of self.old.levels.items)) }
    {
        self.levels.pop();
        self.settle(program);
    }

    /// Holds no line any more, unless a level is open.
    pub fn free(&mut self, program: &Program<'a>)
        ensures { process_of self.new ≡ freed (unkept_kind (tree program.now)) (process_of self.old) }
    {
        let _ = program;
        if self.levels.is_empty() {
            self.state.release();
        }
    }

    /// The lines that it prints at the end of a turn: all that it holds, if no level is open.
    pub fn freed_lines(&self, program: &Program<'a>) -> &[Vec<u8>]
        ensures { map (λ line. line.items) result.now
            ≡ lines_freed (unkept_kind (tree program.now)) (state_of self.now.state) (map level_of self.now.levels.items) }
    {
        let _ = program;
        if self.levels.is_empty() {
            self.state.held.lines()
        } else {
            &[]
        }
    }
}

fn is_nothing(first: First<'_, '_>) -> bool
    ensures { result ≡ is_nothing_left first.entry }
{
    match first {
        First::Nothing => true,
        _ => false,
    }
}
