// Laws of the definitions that contracts cite. Each is the contract of a function without code.
ghost use Rattle.record_lang.specs.Accounts.{EachFedRecordIsToldOnce};
ghost use Rattle.record_lang.specs.FirstRows.{RefusedRowsAreFirst};
ghost use Rattle.record_lang.specs.Marks.{MarksTellRecords};
ghost use Rattle.record_lang.specs.Outcomes.{StagesMakeOutcomes};
ghost use Rattle.record_lang.specs.Printed.{PipelinesAreReadBack};
ghost use Rattle.record_lang.specs.Refusals.{RefusedLinesAreFirst};

/// A record's mark tells the record whole, so that a step on records can be read on their marks.
pub fn marks_tell_records()
    ensures { MarksTellRecords }
{}

/// What `apply_stage` makes of a record by stage 1, by stage 2 of what goes on from there, and so
/// on, is in the end what becomes of the record.
pub fn stages_make_outcomes()
    ensures { StagesMakeOutcomes }
{}

/// Each fed record has one outcome, with its number, and is a result, refused or filtered and no
/// two of these. So as many are fed as are results, refused and filtered together.
pub fn each_fed_record_is_told_once()
    ensures { EachFedRecordIsToldOnce }
{}

/// Where a pipeline's text is refused, every line before the told place is read, and the line there
/// has the told cause; or the place is the count of lines, and the end of the text has it.
pub fn refused_lines_are_first()
    ensures { RefusedLinesAreFirst }
{}

/// A refused row of a record file has the told cause, and no row before it has one. Nor has one of
/// the first 200,000 where there are too many, and no row at all where the file is read.
pub fn refused_rows_are_first()
    ensures { RefusedRowsAreFirst }
{}

/// A pipeline that is written as a text, a line for its guard and two for each stage, is read as
/// itself. So each pipeline of places up to 99, numbers of 64 bits and words has a text.
pub fn pipelines_are_read_back()
    ensures { PipelinesAreReadBack }
{}
