//! The law of all schedules. Its function has no body, and promises the law.

ghost use Rattle.rb_sched.specs.Laws.{TurnsNameProcesses};

/// Each turn of a schedule is that of a process, and there are at most as many as a schedule may have.
pub fn turns_name_processes()
    ensures { TurnsNameProcesses }
{}
