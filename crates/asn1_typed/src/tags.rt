//! Tags of types in the words of X.680 (31.2).
ghost use Rattle.std.specs.Prelude.{◌≡◌, ◌++◌, OnOk};
ghost use Rattle.asn1_typed.specs.Tags.{class_prefix, listed_text, type_tag_text, tags_text};

use asn1_schema::schema::{Tags, TypeTag};
use asn1_words::words::{push_number, push_str};
use std::alloc::AllocError;

/// The word of a class.
fn class_word(class: u8) -> &'static str
    ensures { result.now ≡ class_prefix class }
{
    match class {
        0 => "UNIVERSAL ",
        1 => "APPLICATION ",
        2 => "",
        3.. => "PRIVATE ",
    }
}

/// Appends a tag, as `[UNIVERSAL 16]` or `[0]`.
pub fn push_tag(text: &mut Vec<u8>, tag: TypeTag) -> Result<(), AllocError>
    ensures { OnOk result (text.new.items ≡ text.old.items ++ type_tag_text tag) }
{
    push_str(text, "[")?;
    push_str(text, class_word(tag.class))?;
    push_number(text, u64::from(tag.number))?;
    push_str(text, "]")
}

/// Appends tags, each behind a space.
fn push_listed(text: &mut Vec<u8>, tags: &[TypeTag]) -> Result<(), AllocError>
    ensures { OnOk result (text.new.items ≡ text.old.items ++ listed_text tags.now) }
{
    for tag in tags {
        push_str(text, " ")?;
        push_tag(text, *tag)?;
    }
    Ok(())
}

/// Appends the tags of the elements of a type, each behind a space.
pub fn push_tags(text: &mut Vec<u8>, tags: &Tags) -> Result<(), AllocError>
    ensures { OnOk result (text.new.items ≡ text.old.items ++ tags_text tags.now) }
{
    match tags {
        Tags::Among(listed) => push_listed(text, listed),
        Tags::AllBut(listed) => {
            push_str(text, " any tag but")?;
            push_listed(text, listed)?;
            Ok(())
        }
    }
}
