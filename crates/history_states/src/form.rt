//! The three forms of a table, and the text around what a cell has.

ghost use Rattle.std.specs.Prelude.{◌≡◌};
ghost use Rattle.history_states.specs.Cells.{first_text, last_text, between, closing, header};

/// How a table is written.
#[derive(Clone, Copy, Debug, PartialEq, Eq)]
pub enum Form {
    /// A line for each row, with the name of each number before it.
    Words,
    /// Comma-separated values, with the names in the first line.
    Csv,
    /// A line for each row, which is a JSON object.
    Json,
}

/// The text before a ring's index, with which a row begins.
pub(crate) fn first_text(form: Form) -> &'static [u8]
    ensures { result.now ≡ first_text form }
{
    match form {
        Form::Words => b"ring ",
        Form::Csv => b"",
        Form::Json => b"{\"ring\":",
    }
}

/// The end of a row.
pub(crate) fn last_text(form: Form) -> &'static [u8]
    ensures { result.now ≡ last_text form }
{
    match form {
        Form::Words => b"\n",
        Form::Csv => b"\n",
        Form::Json => b"}\n",
    }
}

/// The text between two numbers of a list.
pub(crate) fn between(form: Form) -> &'static [u8]
    ensures { result.now ≡ between form }
{
    match form {
        Form::Words => b",",
        Form::Csv => b" ",
        Form::Json => b",",
    }
}

/// The text after the last number of a list.
pub(crate) fn closing(form: Form) -> &'static [u8]
    ensures { result.now ≡ closing form }
{
    match form {
        Form::Words => b"",
        Form::Csv => b"",
        Form::Json => b"]",
    }
}

/// The line before the rows, with the names of the columns.
pub(crate) fn header(form: Form) -> &'static [u8]
    ensures { result.now ≡ header form }
{
    match form {
        Form::Words => b"",
        Form::Csv =>
            b"ring,event,kind,seat,machine,order,left,number,result,value,old,states,privileged,at,rest,calm\n",
        Form::Json => b"",
    }
}
