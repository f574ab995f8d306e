ghost use Rattle.std.specs.Prelude.{◌≡◌, ◌++◌, OnOk, string_bytes};
ghost use Rattle.script_play.specs.Texts.{malformed_text, not_built_text, limit_text, too_many_faulty_text};

use std::alloc::AllocError;

/// The byte at this place of the line, counted from 1, isn't in the grammar.
pub fn put_malformed(text: &mut String, number: u64, place: usize) -> Result<(), AllocError>
    ensures { OnOk result (string_bytes text.new ≡ string_bytes text.old ++ malformed_text number place) }
{
    write!(text, "{number} malformed at {place}\n")
}

pub fn put_not_built(text: &mut String, number: u64) -> Result<(), AllocError>
    ensures { OnOk result (string_bytes text.new ≡ string_bytes text.old ++ not_built_text number) }
{
    write!(text, "{number} not built\n")
}

pub fn put_limit(text: &mut String, number: u64, limit: u64) -> Result<(), AllocError>
    ensures { OnOk result (string_bytes text.new ≡ string_bytes text.old ++ limit_text number limit) }
{
    write!(text, "{number} limit {limit}\n")
}

/// The configuration with this number has `count` Byzantine members, more than its bound. A machine
/// adds this line in place of the result of a line, and ends the run.
pub fn put_too_many_faulty(
    text: &mut String,
    number: u64,
    config: u64,
    count: u32,
    bound: u32,
) -> Result<(), AllocError>
    ensures { OnOk result (string_bytes text.new ≡ string_bytes text.old ++ too_many_faulty_text number config count bound) }
{
    write!(
        text,
        "{number} too many faulty: configuration {config} has {count}, bound {bound}\n"
    )
}
