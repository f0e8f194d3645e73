// The text form for callers in C: the text of a chain file, and the chain file of a text, each out into a lent buffer.
ghost use Rattle.meaning.specs.Block.{whole_file};
ghost use Rattle.meaning.specs.Translate.{TextedOutcome, MakeOutcome};
ghost use Rattle.egorstream.specs.Told.{told};

use crate::write::Written;

pub fn egorstream_show(file: &[u8], buffer: &mut [u8]) -> Written
    ensures { TextedOutcome (whole_file file.now) buffer.old (told result) buffer.new }
{
    Written::of(showing::text(file, 0, buffer))
}

pub fn egorstream_make(text: &[u8], buffer: &mut [u8]) -> Written
    ensures { MakeOutcome (whole_file text.now) buffer.old (told result) buffer.new }
{
    Written::of(chaintext::make(text, 0, buffer))
}
