// Which texts are names of objects.
ghost use Rattle.std.specs.{Prelude.{◌≡◌}, List.{list_all}};
ghost use Rattle.ados_names.specs.Names.{is_name, is_name_byte};

use ados_text::Text;

// The most bytes that a name may have.
const NAME_LIMIT: usize = 30;

/// The text is a name: 1 to 30 printable bytes, none of them a colon or a slash.
pub fn is_name(text: &Text) -> bool
    ensures { result ≡ is_name text.now }
{
    are_a_name(text.as_bytes())
}

/// The same of bytes.
pub(crate) fn are_a_name(bytes: &[u8]) -> bool
    ensures { result ≡ is_name bytes.now }
{
    !bytes.is_empty() && bytes.len() <= NAME_LIMIT && are_name_bytes(bytes)
}

fn are_name_bytes(bytes: &[u8]) -> bool
    ensures { result ≡ list_all is_name_byte bytes.now }
{
    bytes.iter().all(|byte| is_name_byte(*byte))
}

fn is_name_byte(byte: u8) -> bool
    ensures { result ≡ is_name_byte byte }
{
    32 <= byte && byte <= 126 && byte != b':' && byte != b'/'
}
