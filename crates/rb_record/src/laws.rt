//! What holds of every record.

ghost use Rattle.rb_record.specs.Recorded.{RecordsRise};

/// The turns of each record are those of its processes, and rise within the limits.
pub fn records_rise()
    ensures { RecordsRise }
{}
