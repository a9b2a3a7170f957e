//! Patterns of names, as shells have them.
#![tactic(auto)]

/// Whether a name is one that a pattern stands for. In the pattern `*` stands for any characters, and `?` for one.
pub fn is_match(pattern: &str, name: &str) -> bool {
    let pattern = pattern.as_bytes();
    let name = name.as_bytes();
    let mut at = 0usize;
    let mut from = 0usize;
    // Behind the last `*`, and what of the name was tried for it.
    let mut star: Option<(usize, usize)> = None;
    for _ in 0..u64::MAX {
        if from == name.len() {
            break;
        }
        let found = pattern.get(at).copied();
        if found == Some(b'*') {
            at = at.saturating_add(1);
            star = Some((at, from));
        } else if found == Some(b'?') {
            at = at.saturating_add(1);
            from = after_character(name, from);
        } else if found.is_some() && found == name.get(from).copied() {
            at = at.saturating_add(1);
            from = from.saturating_add(1);
        } else if let Some((behind, tried)) = star {
            at = behind;
            from = tried.saturating_add(1);
            star = Some((behind, from));
        } else {
            return false;
        }
    }
    pattern.iter().skip(at).all(|byte| *byte == b'*')
}

/// The place after the character of UTF-8 that begins at a place.
fn after_character(name: &[u8], place: usize) -> usize {
    let mut next = place.saturating_add(1);
    for _ in 0..3 {
        match name.get(next) {
            Some(byte) if *byte & 0xC0 == 0x80 => next = next.saturating_add(1),
            _ => break,
        }
    }
    next
}
