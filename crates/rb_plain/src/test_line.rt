//! The test line of a conversation, to which each member comes whose acceptance test held, and which all pass together; and a private
//! level that goes.

ghost use Rattle.std.specs.Prelude.{◌≡◌, ◌<◌, length, map, option_map, slice_get, Some};
ghost use Rattle.std.specs.List.{list_all};
ghost use Rattle.rb_syntax.specs.Tree.{Tree};
ghost use Rattle.rb_syntax.specs.Plain.{tree};
ghost use Rattle.rb_world.specs.Turn.{accepted, all_stand, at_test_line, leaves, stands_there};
ghost use Rattle.rb_world.specs.World.{last_of};
ghost use Rattle.rb_plain.specs.Members.{HasMembers};
ghost use Rattle.rb_levels.specs.Moves.{skipped, IsReady};
ghost use Rattle.rb_walk.specs.States.{state_of};
ghost use Rattle.rb_levels.specs.Worlds.{level_of, process_of, unkept_kind, world_of};
ghost use Rattle.rb_levels.specs.declared.process.Process.{Process as Here};

use rb_base::Nested;
use rb_levels::Process;
use rb_syntax::Program;

/// The acceptance test of process p's innermost level held. A private level goes. A member of a conversation stands at its test line,
/// and once all members stand there they leave. Without a level nothing changes.
pub(crate) fn accept<'a>(
    program: &Program<'a>,
    nested: &Nested,
    processes: &mut [Process<'_, 'a>],
    p: usize,
)
    requires members { HasMembers (tree program.now) nested.now }
    requires process { p < length processes.old }
    requires ready { (one : Here) → slice_get processes.old p ≡ Some one → IsReady one }
    ensures { (one : Here) → slice_get processes.old p ≡ Some one →
        let levels = map level_of one.levels.items in
        world_of (tree program.now) processes.new ≡
        (accepted (unkept_kind (tree program.now)) p levels (last_of levels) (world_of (tree program.now) processes.old) (skipped (state_of one.state), tt)).world }
{
    match conversation_of(&processes[p]) {
        None => {}
        Some(None) => processes[p].pass(program),
        Some(Some(conversation)) => {
            processes[p].stand();
            pass_line(program, nested, processes, conversation);
        }
    }
}

// The conversation of the innermost level, if a level is open.
fn conversation_of(process: &Process<'_, '_>) -> Option<Option<usize>>
    ensures { result ≡ option_map (λ level. level.facts.conversation) (last_of (map level_of process.now.levels.items)) }
{
    match process.innermost() {
        Some(level) => Some(level.conversation),
        None => None,
    }
}

// The test line of a conversation is passed if all members stand there.
fn pass_line<'a>(
    program: &Program<'a>,
    nested: &Nested,
    processes: &mut [Process<'_, 'a>],
    conversation: usize,
)
    requires { HasMembers (tree program.now) nested.now }
    ensures { world_of (tree program.now) processes.new
        ≡ (at_test_line (unkept_kind (tree program.now)) conversation (world_of (tree program.now) processes.old)).world }
{
    if !do_all_stand(nested, processes, conversation) {
        return;
    }
    leave_all(program, processes, conversation);
}

// Whether every member of a conversation stands at its test line.
fn do_all_stand(nested: &Nested, processes: &[Process<'_, '_>], conversation: usize) -> bool
    ensures { (tree : Tree) → HasMembers tree nested.now → result ≡ all_stand (unkept_kind tree) conversation (world_of tree processes.now) }
{
    if conversation >= nested.conversations.len() {
        return true;
    }
    do_stand(
        &nested.conversations[conversation].members,
        processes,
        conversation,
    )
}

// Whether all these processes are there and stand at the test line of a conversation.
fn do_stand(members: &[u32], processes: &[Process<'_, '_>], conversation: usize) -> bool
    ensures { result ≡ list_all (λ m. stands_there conversation (slice_get (map process_of processes.now) m)) members.now }
{
    for member in members {
        if !stands_there(processes, *member, conversation) {
            return false;
        }
    }
    true
}

// Whether a process is there and stands at the test line of a conversation.
fn stands_there(processes: &[Process<'_, '_>], process: u32, conversation: usize) -> bool
    ensures { result ≡ stands_there conversation (slice_get (map process_of processes.now) process) }
{
    let p = process as usize;
    p < processes.len() && processes[p].stands_at(conversation)
}

// Whoever stands at the test line of a conversation leaves, and goes on without its level.
fn leave_all<'a>(program: &Program<'a>, processes: &mut [Process<'_, 'a>], conversation: usize)
    ensures { map process_of processes.new ≡ map (leaves (unkept_kind (tree program.now)) conversation) (map process_of processes.old) }
{
    for process in processes.iter_mut() {
        leave(program, process, conversation);
    }
}

// The same of one process.
fn leave<'a>(program: &Program<'a>, process: &mut Process<'_, 'a>, conversation: usize)
    ensures { process_of process.new ≡ leaves (unkept_kind (tree program.now)) conversation (process_of process.old) }
{
    if process.stands_at(conversation) {
        process.leave(program);
    }
}
