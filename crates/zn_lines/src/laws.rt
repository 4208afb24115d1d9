// Laws of the lines of a script, each the contract of a function that does nothing.
ghost use Rattle.zn_lines.specs.LineLaws.{WrittenIsRead, ReadIsWritten, TextIsRead, ReadingIsLine};
ghost use Rattle.zn_lines.specs.LineCases.{LinesRead, FormatsRead, UsersRead, FaultsRead, LinesWritten, VerbsRefused};
ghost use Rattle.zn_lines.specs.LineCases.{WordsRefused, FormatsRefused, UsersRefused, FaultsRefused, DataRefused};
ghost use Rattle.zn_lines.specs.LineCases.{RequestsRead, RequestsTold, RequestsRefused, LossesRead, LossesRefused};
ghost use Rattle.zn_lines.specs.LineCases.{CommentsRead, NumbersRead};

/// What is a text of a line is read as that line.
pub fn written_is_read()
    ensures { WrittenIsRead }
{}

/// What is read as a line is a text of it. Each line has one, but that the items of a format may stand in any order,
/// that a user or a group of 0 may be left out, and that the changes that are never allowed don't keep their words.
pub fn read_is_written()
    ensures { ReadIsWritten }
{}

/// A line that keeps its words and is within the limits is read from its plain text.
pub fn text_is_read()
    ensures { TextIsRead }
{}

/// What a script reads as a line is a line: no line is empty or a comment.
pub fn reading_is_line()
    ensures { ReadingIsLine }
{}

/// Some lines, and what is read of them.
pub fn lines_are_read()
    ensures { LinesRead }
{}

/// Some lines that format, mount and unmount.
pub fn formats_are_read()
    ensures { FormatsRead }
{}

/// Who opens a file.
pub fn users_are_read()
    ensures { UsersRead }
{}

/// Some lines that let a device fail, and turn zones.
pub fn faults_are_read()
    ensures { FaultsRead }
{}

/// Some lines of requests.
pub fn requests_are_read()
    ensures { RequestsRead }
{}

/// What is told of some requests.
pub fn requests_are_told()
    ensures { RequestsTold }
{}

/// Some lines that report zones, and let the power go and come back.
pub fn losses_are_read()
    ensures { LossesRead }
{}

/// The plain texts of some lines.
pub fn lines_are_written()
    ensures { LinesWritten }
{}

/// Where lines are refused whose verb does not fit.
pub fn verbs_are_refused()
    ensures { VerbsRefused }
{}

/// Where lines are refused of which another word does not fit, is missing or is too many.
pub fn words_are_refused()
    ensures { WordsRefused }
{}

/// Where lines that format, mount and unmount are refused.
pub fn formats_are_refused()
    ensures { FormatsRefused }
{}

/// Where lines are refused for a user or a group.
pub fn users_are_refused()
    ensures { UsersRefused }
{}

/// Where lines are refused that let a device fail, or turn zones.
pub fn faults_are_refused()
    ensures { FaultsRefused }
{}

/// Where lines of requests are refused.
pub fn requests_are_refused()
    ensures { RequestsRefused }
{}

/// Where lines are refused that report zones, or let the power go or come back.
pub fn losses_are_refused()
    ensures { LossesRefused }
{}

/// Where lines are refused whose data does not fit.
pub fn data_is_refused()
    ensures { DataRefused }
{}

/// Comments and empty lines.
pub fn comments_are_read()
    ensures { CommentsRead }
{}

/// Some words that are numbers, and some that are none.
pub fn numbers_are_read()
    ensures { NumbersRead }
{}
