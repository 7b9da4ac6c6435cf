//! A table turned round by the binary digits of the jobs' numbers: a step exchanges digit e of a row's number with
//! that of a column's. It works on pairs of rows whose numbers differ in digit e alone.
ghost use Rattle.std.specs.Prelude.{ℕ, ◌^◌, ◌<◌, ◌≤◌, ◌≡◌, not, length};
ghost use Rattle.relation.specs.Table.{bit, has, holds};
ghost use Rattle.relation.specs.Exchange.{first_row_of, second_row_of, exchanged, Until};

use crate::set::JobSet;

// How many binary digits the numbers below n have.
pub fn digits(n: usize) -> usize
    requires { n ≤ 128 }
    ensures { (result ≤ 7) × (n ≤ 2 ^ result) }
{
    for w in 0..7 {
        if n <= 1 << w {
            return w;
        }
    }
    7
}

// The first row of a pair after step e: its columns without digit e stay, and the second row's go to those with it.
fn first_row(a: JobSet, b: JobSet, e: usize, clear: u64) -> JobSet
    requires e_bound { e < 6 }
    requires by_index { (i : ℕ) → i < 64 → bit clear i ≡ not (bit i e) }
    ensures { (v : ℕ) → has result v ≡ first_row_of e (has a) (has b) v }
{
    let [a_low, a_high] = a.words();
    let [b_low, b_high] = b.words();
    let far: usize = 1 << e;
    JobSet::from_words([
        a_low & clear | b_low << far & !clear,
        a_high & clear | b_high << far & !clear,
    ])
}

// The second row of a pair after step e: its columns with digit e stay, and the first row's go to those without it.
fn second_row(a: JobSet, b: JobSet, e: usize, clear: u64) -> JobSet
    requires e_bound { e < 6 }
    requires by_index { (i : ℕ) → i < 64 → bit clear i ≡ not (bit i e) }
    ensures { (v : ℕ) → has result v ≡ second_row_of e (has a) (has b) v }
{
    let [a_low, a_high] = a.words();
    let [b_low, b_high] = b.words();
    let far: usize = 1 << e;
    JobSet::from_words([
        a_low >> far & clear | b_low & !clear,
        a_high >> far & clear | b_high & !clear,
    ])
}

// Step e below 6 on the rows below 2^w, where clear has the columns of a word without digit e.
fn within_words(t: &mut [JobSet; 128], e: usize, clear: u64, w: usize)
    requires e_bound { (e < 6) × (e < w) × (w ≤ 7) × (length t.old ≡ 128) }
    requires by_index { (i : ℕ) → i < 64 → bit clear i ≡ not (bit i e) }
    requires until { Until (2 ^ w) t.old }
    ensures t_len { length t.new ≡ 128 }
    ensures by_index_2 { (u v : ℕ) → holds t.new u v ≡ exchanged e (holds t.old) u v }
{
    let pairs = 1 << (w - 1);
    for m in 0..pairs {
        let u = m + (m >> e << e);
        let x = u + (1 << e);
        let a = t[u];
        let b = t[x];
        t[u] = first_row(a, b, e, clear);
        t[x] = second_row(a, b, e, clear);
    }
}

// The first row of a pair after step 6: the first words of both.
fn first_words(a: JobSet, b: JobSet) -> JobSet
    ensures { (v : ℕ) → has result v ≡ first_row_of 6 (has a) (has b) v }
{
    let [a_low, _] = a.words();
    let [b_low, _] = b.words();
    JobSet::from_words([a_low, b_low])
}

// The second row of a pair after step 6: the second words of both.
fn second_words(a: JobSet, b: JobSet) -> JobSet
    ensures { (v : ℕ) → has result v ≡ second_row_of 6 (has a) (has b) v }
{
    let [_, a_high] = a.words();
    let [_, b_high] = b.words();
    JobSet::from_words([a_high, b_high])
}

// Step 6 on all rows: the second words of the rows below 64 change places with the first words of the others.
fn across_words(t: &mut [JobSet; 128])
    requires { length t.old ≡ 128 }
    ensures t_len { length t.new ≡ 128 }
    ensures by_index { (u v : ℕ) → holds t.new u v ≡ exchanged 6 (holds t.old) u v }
{
    for u in 0..64 {
        let x = u + 64;
        let a = t[u];
        let b = t[x];
        t[u] = first_words(a, b);
        t[x] = second_words(a, b);
    }
}

// Step e on the rows below 2^w. A match on the digit: a loop for each, so that its distances are fixed, which the
// compiler needs for several rows at a time.
pub fn step(t: &mut [JobSet; 128], e: usize, w: usize)
    requires e_lt_w { (e < w) × (w ≤ 7) × (length t.old ≡ 128) }
    requires until { Until (2 ^ w) t.old }
    ensures t_len { length t.new ≡ 128 }
    ensures by_index { (u v : ℕ) → holds t.new u v ≡ exchanged e (holds t.old) u v }
{
    match e {
        0 => within_words(t, 0, 0x5555_5555_5555_5555, w),
        1 => within_words(t, 1, 0x3333_3333_3333_3333, w),
        2 => within_words(t, 2, 0x0f0f_0f0f_0f0f_0f0f, w),
        3 => within_words(t, 3, 0x00ff_00ff_00ff_00ff, w),
        4 => within_words(t, 4, 0x0000_ffff_0000_ffff, w),
        5 => within_words(t, 5, 0x0000_0000_ffff_ffff, w),
        _ => across_words(t),
    }
}
