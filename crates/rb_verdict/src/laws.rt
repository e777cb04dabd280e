//! Laws of verdicts. Their functions have no body, and promise the law.
ghost use Rattle.rb_verdict.specs.Laws.{AreJudged, AreJudgedOnce, ImagesRunAsTheirSources, RequestsHaveTheirFiles, SurvivorsEndAlike, SurvivorsReplay};

/// The texts of a request's files are judged in one way at most: it is refused for one fault, or writes one text.
pub fn are_judged_once()
    ensures { AreJudgedOnce }
{}

/// The texts of a request for the files of its command are judged: it is refused, or writes a text.
pub fn are_judged()
    ensures { AreJudged }
{}

/// What words ask for is a request for the files of its command, each with its limit.
pub fn requests_have_their_files()
    ensures { RequestsHaveTheirFiles }
{}

/// What `plain` writes of what `survive` wrote has the `out` lines of `run`, in their order, and its values, where the record is no longer
/// than a file may be.
pub fn survivors_replay()
    ensures { SurvivorsReplay }
{}

/// Of every accepted source the survivors of a run, run alone, come to the end to which the run came.
pub fn survivors_end_alike()
    ensures { SurvivorsEndAlike }
{}

/// What `compile` wrote of a source runs as the source does: over each schedule `load` of it writes the very text of `run`, or is refused for the
/// same fault.
pub fn images_run_as_their_sources()
    ensures { ImagesRunAsTheirSources }
{}
