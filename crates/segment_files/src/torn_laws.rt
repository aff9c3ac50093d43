//! Laws of torn ends: functions with an empty body, whose contract is the law.

ghost use Rattle.segment_files.specs.Torn.{ToldLinesStay, WholeFilesStay};

/// Of a file that begins with a head and with a right journal, remarks in it or not, the front of a torn end has all of
/// that, whatever comes after it: no line that was reported is left out. With nothing after it the file has no torn end.
pub fn told_lines_stay()
    ensures front { ToldLinesStay }
    ensures whole { WholeFilesStay }
{}
