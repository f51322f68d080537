//! The texts of an object whose members are all strings, read a token at a time.

ghost use Rattle.std.specs.Prelude.{◌≡◌, IfSome};
ghost use Rattle.std.specs.Option.{option_copied};
ghost use Rattle.elf_table.specs.Members.{later, HasTexts, IsObjectOf};

use json::{Reader, Token};

/// What an object has at the four keys of a symbol's name.
#[derive(Clone, Copy, Drop)]
pub struct Texts<'a> {
    pub package: Option<&'a str>,
    pub tag: Option<&'a str>,
    pub text: Option<&'a str>,
    pub disambiguator: Option<&'a str>,
}

/// What stands at a name once a member was read.
pub fn later<'a>(name: &str, key: &str, text: &'a str, before: Option<&'a str>) -> Option<&'a str>
    ensures { option_copied result
        ≡ later name.now key.now text.now (option_copied before.entry) }
{
    if key == name { Some(text) } else { before }
}

// The texts of an object that the reader is in, which it leaves, `None` where a member is no string.
fn texts_of<'a>(reader: &mut Reader<'a>) -> Option<Texts<'a>>
    ensures { IfSome result (HasTexts reader.old reader.new) }
{
    let mut package = None;
    let mut tag = None;
    let mut text = None;
    let mut disambiguator = None;
    'members: loop {
        let Ok(next) = reader.next_key() else {
            return None;
        };
        let Some(key) = next else {
            return Some(Texts {
                package,
                tag,
                text,
                disambiguator,
            });
        };
        let Some(Token::String(value)) = reader.next() else {
            return None;
        };
        package = later("package", key, value, package);
        tag = later("tag", key, value, tag);
        text = later("data", key, value, text);
        disambiguator = later("disambiguator", key, value, disambiguator);
    }
}

/// The texts of the one object that the reader has, `None` where it has none or a member is no string.
pub fn object_texts<'a>(reader: &mut Reader<'a>) -> Option<Texts<'a>>
    ensures { IfSome result (IsObjectOf reader.old) }
{
    let Some(Token::BeginObject) = reader.next() else {
        return None;
    };
    let texts = texts_of(reader)?;
    match reader.next() {
        None => Some(texts),
        Some(_) => None,
    }
}
