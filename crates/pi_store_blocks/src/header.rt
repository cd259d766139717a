//! What a word that is no Ref says of the words below it.
ghost use Rattle.std.specs.Prelude.{◌≡◌, ◌<◌, ◌^◌, ◌*◌, ◌+◌, IfOk};
ghost use Rattle.pi_store_blocks.specs.Form.{header_of, comp_word, wide_word};

use std::alloc::AllocError;

/// How many arguments a header tells apart.
const MOST_ARGS: u64 = 4_294_967_296;

/// How many names a header tells apart.
const MOST_NAMES: u32 = 67_108_864;

/// What a word says of the words below it.
#[derive(Clone, Copy)]
pub enum Header {
    Nothing,
    /// They are the arguments of a compound: the number of its name, how many they are, and whether they are ground.
    Comp(u64, u64, bool),
    /// They are the lower two parts of an integer, of which this is the first.
    Wide(u64),
}

impl Header {
    /// What a word says.
    pub fn of(word: u64) -> Header
        ensures { result ≡ header_of word }
    {
        let number = word / 32;
        let kind = word % 32;
        if kind == 15 {
            return Header::Comp(
                number / 2 / MOST_ARGS,
                number / 2 % MOST_ARGS,
                number % 2 == 1,
            );
        }
        if kind == 23 {
            return Header::Wide(number);
        }
        Header::Nothing
    }
}

/// The header of a compound. More names or arguments than a header tells apart are want of memory.
pub fn comp(name: u32, count: usize, is_ground: bool) -> Result<u64, AllocError>
    ensures { IfOk result (λ made. (made ≡ comp_word name count is_ground) × (count < 2 ^ 32)) }
{
    let count = count as u64;
    if count >= MOST_ARGS {
        return Err(AllocError);
    }
    if name >= MOST_NAMES {
        return Err(AllocError);
    }
    let flag = if is_ground { 1 } else { 0 };
    Ok(((u64::from(name) * MOST_ARGS + count) * 2 + flag) * 32 + 15)
}

/// The header of an integer.
pub fn wide(top: u64) -> u64
    requires { top < 2 ^ 59 }
    ensures { result ≡ wide_word top }
{
    top * 32 + 23
}
