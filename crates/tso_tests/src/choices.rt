//! The words of seeds, against published ones: a seed must give the same run on every machine and in every version.

ghost use Rattle.std.specs.Prelude.{◌<◌};

use crate::named::{MEMORY, holds};
use rand_core::SeedableRng;
use rand_core::utils::NextWord;
use rand_pcg::Lcg64Xsh32;
use scheduler::{read_choices, seeded_choices};
use std::alloc::Global;
use std::process::Abort;

/// The reference stream of the generator's authors.
const REFERENCE: [u32; 6] = [
    0xa15c02b7, 0x7b47f409, 0xba1d3330, 0x83d2f293, 0xbfa4784b, 0xcbed606e,
];

/// The number that its crate publishes of seed 0, 18195738587432868099, in two words, the low one first.
const OF_SEED_0: [u32; 2] = [0x11cdd903, 0xfc843fd7];

fn gives(rt: &impl Abort, mut generator: Lcg64Xsh32, words: &[u32]) {
    for word in words {
        holds(rt, generator.next_word() == *word);
    }
}

#[test]
fn the_generator_gives_the_published_words(rt: HostRuntime) {
    gives(&rt, Lcg64Xsh32::new(42, 54), &REFERENCE);
    gives(&rt, Lcg64Xsh32::seed_from_u64(0), &OF_SEED_0);
}

/// Whether a seed begins with these choices for so many cores.
fn begins(rt: &impl Abort, alloc: Global, cores: u8, seed: u64, choices: &[u8])
    requires { 0 < cores }
{
    let listed = read_choices(alloc, cores, choices).expect(rt, "choices");
    let seeded = seeded_choices(alloc, cores, seed, listed.len()).expect(rt, MEMORY);
    holds(rt, seeded == listed);
}

/// The choices were worked out apart from this project from the published algorithm.
#[test]
fn a_seed_gives_its_choices(rt: HostRuntime) {
    let alloc = rt.alloc();
    begins(&rt, alloc, 255, 0, b"93d 203d");
    begins(&rt, alloc, 2, 9, b"1s 1d 1d 1d 1s 0d");
    begins(&rt, alloc, 3, 17, b"0d 2d 2s 2d 1d 0d");
    begins(&rt, alloc, 2, 18446744073709551615, b"1s 1s 0s 0d");
}

#[test]
fn a_seed_begins_anew(rt: HostRuntime) {
    let seeded = read_choices(rt.alloc(), 2, b"seed 9 4 seed 9 2").expect(&rt, "choices");
    let listed = read_choices(rt.alloc(), 2, b"1s 1d 1d 1d 1s 1d").expect(&rt, "choices");
    holds(&rt, seeded == listed);
}
