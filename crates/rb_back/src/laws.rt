//! Laws of sessions. Their functions have no body, and promise the law.

ghost use Rattle.rb_back.specs.Laws.{BackBehindStep, CodeShowsAsMeant, ViewIsOfRun};
ghost use Rattle.rb_back.specs.Others.{OthersStay};
ghost use Rattle.rb_back.specs.Stores.{StoresStay};

/// After every list of steps and backs a session shows the run over the first turns up to its position.
pub fn view_is_of_run()
    ensures { ViewIsOfRun }
{}

/// One step back behind one forth leaves what is shown and the position as before.
pub fn back_behind_step()
    ensures { BackBehindStep }
{}

/// The code of an accepted source shows what its meaning shows, over all turns and orders.
pub fn code_shows_as_meant()
    ensures { CodeShowsAsMeant }
{}

/// A turn that passes no test line and rejects no conversation changes no process but its own, in every run of sound code. So no other
/// words are compared behind it.
pub fn others_stay()
    ensures { OthersStay }
{}

/// A turn that neither takes anything back nor passes a test line changes no word of variables but those that its address may store, in every
/// run of sound code. So no other word of its process is compared behind it.
pub fn stores_stay()
    ensures { StoresStay }
{}
