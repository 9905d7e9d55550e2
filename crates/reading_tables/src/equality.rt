//! Whether a round has changed anything.
ghost use Rattle.std.specs.Prelude.{◌≡◌, true};
ghost use Rattle.reading_tables.specs.inner.Told.{known_of};
ghost use Rattle.reading_tables.specs.inner.Tables.{reading_of, readings_of};

use crate::tables::Reading;
use tso_terms::Entry;

fn same_values(a: &Option<Vec<u32>>, b: &Option<Vec<u32>>) -> bool
    ensures { result ≡ true → known_of a.now ≡ known_of b.now }
{
    match (a, b) {
        (None, None) => true,
        (Some(a), Some(b)) => a == b,
        _ => false,
    }
}

fn equal_source(a: &Option<Entry>, b: &Option<Entry>) -> bool
    ensures { result ≡ true → a.now ≡ b.now }
{
    match (a, b) {
        (None, None) => true,
        (Some(w), Some(v)) => w == v,
        _ => false,
    }
}

fn equal_sources(xs: &[Option<Entry>], ys: &[Option<Entry>]) -> bool
    ensures { result ≡ true → xs.now ≡ ys.now }
{
    if xs.len() != ys.len() {
        return false;
    }
    let mut left = xs.len();
    while left > 0 {
        left -= 1;
        if !equal_source(&xs[left], &ys[left]) {
            return false;
        }
    }
    true
}

fn same_reading(a: &Reading, b: &Reading) -> bool
    ensures { result ≡ true → reading_of a.now ≡ reading_of b.now }
{
    if a.read != b.read {
        return false;
    }
    if a.least != b.least {
        return false;
    }
    if !equal_sources(&a.sources, &b.sources) {
        return false;
    }
    same_values(&a.values, &b.values)
}

/// Whether both have the same readings.
pub fn same_readings(xs: &[Reading], ys: &[Reading]) -> bool
    ensures { result ≡ true → readings_of xs.now ≡ readings_of ys.now }
{
    if xs.len() != ys.len() {
        return false;
    }
    let mut left = xs.len();
    while left > 0 {
        left -= 1;
        if !same_reading(&xs[left], &ys[left]) {
            return false;
        }
    }
    true
}
