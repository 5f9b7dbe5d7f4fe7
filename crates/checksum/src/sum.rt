// The sum that a block's check is to be, without a product for each byte: 8 rows of 64 bytes, from the last row up.
// The sums of a column are of 16 bits, so that a compiler does eight columns at a time.
ghost use Rattle.std.specs.Prelude.{◌≡◌, ◌+◌, ◌≤◌, length};
ghost use Rattle.places.specs.Places.{total};
ghost use Rattle.layout.specs.Editions.{block_length};
ghost use Rattle.layout.specs.Layout.{weighed, check_sum};
ghost use Rattle.checksum.specs.Sum.{block_sum};
ghost use Rattle.checksum.specs.Rows.{Small, all_more, rows_more, column_weight};

use layout::{BLOCK_LENGTH, CHECK_AT};

// One row more, the 64 bytes from place `at` on. A slice: of an array that is lent the check has no bound for each
// byte. The two sums of a column are no struct, so that each array is one list of numbers. The loops go by places: here
// one place is of three lists, and below a place is also what its number weighs.
fn add_row(b: &[u8], at: usize, all: &mut [u16; 64], rows: &mut [u16; 64])
    requires { (at + 64 ≤ length b.now) × (length b.now ≤ block_length) × Small all.old rows.old }
    ensures all_new { all.new ≡ all_more b.now at all.old }
    ensures rows_new { rows.new ≡ rows_more all.old rows.old }
{
    for j in 0..64 {
        rows[j] += all[j];
        all[j] += b[at + j] as u16;
    }
}

// The columns' sums together.
fn weigh(all: &[u16; 64], rows: &[u16; 64]) -> u32
    requires { Small all.now rows.now }
    ensures { result ≡ total (column_weight all.now rows.now) 64 }
{
    let mut sum: u32 = 0;
    for j in 0..64 {
        sum += 64 * rows[j] as u32 + (j as u32 + 1) * all[j] as u32;
    }
    sum
}

// What the check's own four bytes weigh among the 512: they are no part of its sum.
fn own(b: &[u8]) -> u32
    requires { length b.now ≡ block_length }
    ensures { check_sum b.now + result ≡ total (weighed b.now) block_length }
{
    let mut sum: u32 = 0;
    for i in CHECK_AT..BLOCK_LENGTH {
        sum += (i as u32 + 1) * b[i] as u32;
    }
    sum
}

// The sum over i from 0 to 507 of (i + 1) times byte i; a list of another length is no block and has 0, as
// docs/ENTRIES.md promises.
pub fn check_sum(b: &[u8]) -> u32
    ensures { result ≡ block_sum b.now }
{
    if b.len() != BLOCK_LENGTH {
        return 0;
    }
    let mut all = [0u16; 64];
    let mut rows = [0u16; 64];
    for row in (0..8).rev() {
        add_row(b, 64 * row, &mut all, &mut rows);
    }
    weigh(&all, &rows) - own(b)
}
