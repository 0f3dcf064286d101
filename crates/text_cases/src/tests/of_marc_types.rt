use marc_types::{NoMemory, Text, TryCopy};
use std::alloc::Global;
use std::cmp::Ordering;
use std::test::Fail;

/// Of 0, 29, 30 and 31 bytes, where 30 lie in the text itself; then of 30 and 31 with two bytes for the last letter.
const TEXTS: [&str; 6] = [
    "",
    "Vocabulaire technique, 2 vol.",
    "Vocabulaires techniques, 2 vol",
    "Vocabulaires techniques, 2 vol.",
    "Vocabulaires techniques & clé",
    "Vocabulaires techniques, & clé",
];

fn pushed(alloc: Global, text: &str) -> Result<Text, NoMemory> {
    let mut made = Text::new();
    for c in text.chars() {
        made.push(alloc, c)?;
    }
    Ok(made)
}

// Made at once, from a string, by characters and by a copy, it is one text.
fn is_kept(alloc: Global, text: &str) -> Result<bool, NoMemory> {
    let made = Text::from_str(alloc, text)?;
    let given = Text::from_string(String::from_str(alloc, text)?);
    let pushed = pushed(alloc, text)?;
    let twin = pushed.copy(alloc)?;
    Ok(
        made.as_str() == text
            && made.len() == text.len()
            && given == made
            && pushed == made
            && twin.cmp(&made) == Ordering::Equal,
    )
}

// A text that lies apart, shortened by a point, is the text that lies in itself.
fn is_shortened(alloc: Global, text: &str) -> Result<bool, NoMemory> {
    let mut longer = Text::from_str(alloc, text)?;
    longer.push_str(alloc, ".")?;
    let popped = longer.pop_if(b'.');
    let made = Text::from_str(alloc, text)?;
    Ok(popped && longer == made && !longer.pop_if(b'.'))
}

fn is_without_blanks(alloc: Global, text: &str, want: &str) -> Result<bool, NoMemory> {
    let filled = Text::from_str(alloc, text)?.without_blanks(alloc)?;
    Ok(filled.as_str() == want)
}

#[test]
fn texts_are_kept_at_any_length(rt: HostRuntime) -> Result<(), Fail> {
    let alloc = rt.alloc();
    for text in &TEXTS {
        assert!(rt; is_kept(alloc, text)?);
    }
    assert!(rt; is_shortened(alloc, TEXTS[2])?);
    assert!(rt; is_without_blanks(alloc, " n  79 ", "n79")?);
    assert!(rt; is_without_blanks(alloc, TEXTS[5], "Vocabulairestechniques,&clé")?);
    Ok(())
}
