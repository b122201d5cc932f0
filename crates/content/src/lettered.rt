//! A text as content words, and back.

ghost use Rattle.std.specs.Prelude.{◌≡◌, ℕ, ◌*◌, ◌^◌, ◌<◌, ◌≤◌, length, map, if◌then◌else◌, Some, None};
ghost use Rattle.std.specs.Option.{option_map};
ghost use Rattle.std.specs.List.{AllByRecursion};
ghost use Rattle.content.specs.Kind.{taken_apart};
ghost use Rattle.content.specs.Kinds.{laid_out, before_padding, lettered_kind};

use crate::groups::regroup;
use crate::lettering::Lettered;
use buffers::Buffer;

/// The bits of a content word.
const WORD: usize = 24;

// Room and count are parameters beside the type: a constant of a trait cannot be the length of an array.

/// The words of a text, whose characters have this room and fill this many words.
pub(crate) fn words_of<T: Lettered, const ROOM: usize, const COUNT: usize>(text: &T) -> [u32; COUNT]
    requires { (ROOM ≡ T.lettering.room) × (COUNT ≡ T.lettering.count) }
    ensures { result ≡ (lettered_kind T.lawful T.lettering).words (T.text_of text.now) }
{
    let groups = laid_out::<T, ROOM>(text.text());
    let mut words = [0; COUNT];
    regroup(&groups, T::WIDTH, &mut words, WORD);
    words
}

/// The groups of characters, and padding behind them.
fn laid_out<T: Lettered, const ROOM: usize>(characters: &[u8]) -> [u32; ROOM]
    requires { (ROOM ≡ T.lettering.room) × (length characters.now ≤ ROOM) }
    ensures { result ≡ laid_out T.lettering characters.now }
{
    let mut groups = [T::PADDING; ROOM];
    // by place: of what a zip with `iter_mut` writes a proof knows nothing, and `from_fn` would look each up by its place too
    for (i, character) in characters.iter().enumerate() {
        groups[i] = T::code(*character);
    }
    groups
}

/// The text that has these words, if there is one.
pub(crate) fn text_of<T: Lettered, const ROOM: usize, const COUNT: usize>(
    words: &[u32; COUNT],
) -> Option<T>
    requires { (ROOM ≡ T.lettering.room) × (COUNT ≡ T.lettering.count) }
    ensures { option_map T.text_of result ≡ taken_apart (lettered_kind T.lawful T.lettering) words.now }
{
    let mut groups = [0; ROOM];
    regroup(words, WORD, &mut groups, T::WIDTH);
    let text = read::<T, ROOM>(&groups)?;
    if words_of::<T, ROOM, COUNT>(&text) == *words {
        Some(text)
    } else {
        None
    }
}

/// The text of the groups before the first that holds padding, if it is lawful.
fn read<T: Lettered, const ROOM: usize>(groups: &[u32; ROOM]) -> Option<T>
    requires { AllByRecursion (λ g. g < 2 ^ T.WIDTH) groups.now }
    ensures { option_map T.text_of result ≡ (if T.lawful (map T.lettering.character (before_padding T.PADDING groups.now)) then Some (map T.lettering.character (before_padding T.PADDING groups.now)) else None) }
{
    let mut characters = Buffer::<ROOM>::new();
    for group in groups {
        if *group == T::PADDING {
            return T::of(characters.as_slice());
        }
        characters.push(T::character(*group));
    }
    T::of(characters.as_slice())
}
