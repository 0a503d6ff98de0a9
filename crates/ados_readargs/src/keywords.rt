// Keywords: which option a word names.
ghost use Rattle.std.specs.Prelude.{◌≡◌, position};
ghost use Rattle.ados_readargs.specs.Meanings.{is_keyword, keyword_of, trimmed_end};

use crate::options::TemplateOption;
use crate::words::LineWord;
use ados_items::{between, is_blank};

fn is_keyword(name: &[u8], whole: bool, option: &TemplateOption) -> bool
    ensures { result ≡ is_keyword name.now whole option.now }
{
    option.has_name(name) && !option.qualifiers.rest && (whole || option.qualifiers.takes_value())
}

// The option of which a run that begins with the name is a keyword; `whole` says that it ends there.
pub fn option_named(options: &[TemplateOption], name: &[u8], whole: bool) -> Option<usize>
    ensures { result ≡ position (is_keyword name.now whole) options.now }
{
    options
        .iter()
        .position(|option| is_keyword(name, whole, option))
}

// The option of which a word is a keyword.
pub fn keyword_of(options: &[TemplateOption], line: &[u8], word: LineWord) -> Option<usize>
    ensures { result ≡ keyword_of options.now line.now word }
{
    match word {
        LineWord::Run { from, key, to } => {
            if from == key {
                None
            } else {
                option_named(options, between(line, from, key), key == to)
            }
        }
        LineWord::Quoted { .. } => None,
        LineWord::Open(_) => None,
    }
}

// The place after the last byte that is not a blank.
pub fn trimmed_len(line: &[u8]) -> usize
    ensures { result ≡ trimmed_end 0 0 line.now }
{
    let mut end = 0;
    for place in 0..line.len() {
        if !is_blank(line[place]) {
            end = place + 1;
        }
    }
    end
}
