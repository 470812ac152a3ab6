//! The numbers of a record: four bytes each, highest first, two's complement; and their limits.
ghost use Rattle.std.specs.Prelude.{◌≡◌, ◌+◌, ◌^◌, ◌≤◌, ◌&&◌, length, drop, pos, if◌then◌else◌, int_le};
ghost use Rattle.page.specs.Fits.{form_fits, leaf_fits, new_fits, number_fits, usable};
ghost use Rattle.base.specs.Numbers.{all_zero};
ghost use Rattle.page.specs.Words.{forms, word, words};

use base::number::is_small;
use tree::node::NodeForm;
use tree::walk::all_below;

/// The largest divisor of a new parameter: 2^30.
const LARGEST: i32 = 1 << 30;

/// Inner: the number in the four bytes from `at` on.
pub fn word_at(bytes: &[u8], at: usize) -> i32
    requires inside { at + 4 ≤ length bytes.now }
    ensures value { result ≡ word (drop at bytes.now) }
{
    i32::from_be_bytes([bytes[at], bytes[at + 1], bytes[at + 2], bytes[at + 3]])
}

/// Inner: the ten numbers of a form, in the forty bytes from `at` on.
pub fn form_at(bytes: &[u8], at: usize) -> NodeForm
    requires inside { at + 40 ≤ length bytes.now }
    ensures value { result ≡ words 10 (drop at bytes.now) }
{
    let mut form = [0; 10];
    for k in 0..10 {
        form[k] = word_at(bytes, at + 4 * k);
    }
    form
}

/// Inner: the number of four bytes.
pub fn word_of(bytes: &[u8; 4]) -> i32
    ensures value { result ≡ word bytes.now }
{
    i32::from_be_bytes(*bytes)
}

/// Inner: the ten numbers of a form.
pub fn form_of(bytes: &[u8; 40]) -> NodeForm
    ensures value { result ≡ words 10 bytes.now }
{
    let (words, _) = bytes.as_chunks::<4>();
    // a loop: what the closure of `array::from_fn` answered for a signed number was not found again
    let mut form = [0; 10];
    for (k, word) in words.iter().enumerate() {
        form[k] = word_of(word);
    }
    form
}

/// Inner: the divisor and the form of a new parameter.
pub fn new_of(bytes: &[u8; 44]) -> (i32, NodeForm)
    ensures divisor { result.0 ≡ word bytes.now }
    ensures form { result.1 ≡ words 10 (drop 4 bytes.now) }
{
    let divisor = bytes.first_chunk().unwrap();
    let form = bytes.last_chunk().unwrap();
    (word_of(divisor), form_of(form))
}

// Twin of `form_of` but for two lengths: a filler over a closure and both would be longer than the two loops.
/// Inner: the six forms of a leaf, in the first 240 bytes.
pub fn forms_of(bytes: &[u8]) -> [NodeForm; 6]
    requires inside { 240 ≤ length bytes.now }
    ensures value { result ≡ forms 6 bytes.now }
{
    let (parts, _) = bytes.as_chunks::<40>();
    let mut forms = [[0; 10]; 6];
    for (k, part) in parts[..6].iter().enumerate() {
        forms[k] = form_of(part);
    }
    forms
}

// p and made are two bytes, named at each call: a struct around them would be taken apart at once.
/// Whether place k of a form may be other than 0.
fn is_usable(p: u8, made: u8, k: usize) -> bool
    ensures value { result ≡ usable p made k }
{
    if k < 4 {
        k < usize::from(p)
    } else if k < 9 {
        k < 4 + usize::from(made)
    } else {
        true
    }
}

/// Whether the number may stand at place k of a form.
fn number_fits(p: u8, made: u8, k: usize, x: i32) -> bool
    ensures value { result ≡ number_fits p made k x }
{
    is_small(i64::from(x)) && (is_usable(p, made, k) || x == 0)
}

/// Whether a form is within the limits.
pub fn form_fits(form: &NodeForm, p: u8, made: u8) -> bool
    ensures value { result ≡ form_fits p made form.now }
{
    form.iter()
        .enumerate()
        .all(|(k, x)| number_fits(p, made, k, *x))
}

/// Whether each number is 0.
fn all_zero(xs: &[i32]) -> bool
    ensures value { result ≡ all_zero xs.now }
{
    xs.iter().all(|x| *x == 0)
}

/// Whether a new parameter floor(T / d) is within the limits.
#[tactic(auto, unfolding(crate::specs::Fits::new_fits))]
pub fn new_fits(d: i32, form: &NodeForm, p: u8, made: u8) -> bool
    ensures value { result ≡ new_fits p made d form.now }
{
    is_divisor(d) && (form_fits(form, p, made) && (all_below(form, d) && !all_zero(&form[..9])))
}

/// Whether the number is from 2 to 2^30.
fn is_divisor(d: i32) -> bool
    ensures value { result ≡ (int_le (pos 2) d && int_le d (pos (2 ^ 30))) }
{
    (2..=LARGEST).contains(&d)
}

/// Whether a form of a leaf is within the limits: 0 where it is not in use.
fn leaf_form_fits(form: &NodeForm, used: bool, p: u8, made: u8) -> bool
    ensures value { result ≡ (if used then form_fits p made form.now else all_zero form.now) }
{
    if used {
        form_fits(form, p, made)
    } else {
        all_zero(form)
    }
}

/// Whether the forms of a leaf for n unknowns are within the limits.
pub fn leaf_fits(forms: &[NodeForm; 6], n: u8, p: u8, made: u8) -> bool
    ensures value { result ≡ leaf_fits n p made forms.now }
{
    forms.iter().enumerate().all(|(k, form)| leaf_form_fits(form, k < usize::from(n), p, made))
}
