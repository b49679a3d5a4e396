// The logistic table and the score of a float by it: whole-number arithmetic, so that every machine gives the same bits.
#![tactic(auto)]

mod table;

ghost use Rattle.std.specs.Prelude.{◌≡◌, ◌<◌, ◌≤◌, true, false, T};
ghost use Rattle.std.specs.Float.Ieee.{le};
ghost use Rattle.logistic.specs.Score.{entry_at, units_at, u_of, sixteen, score_for, answer_of, paper, presence_score};

use table::TABLE;

// The refusal of a NaN: reply 6, place 0.
#[derive(Clone, Copy, Debug, PartialEq, Eq)]
pub struct NotANumber;

// Entry k of the table.
fn entry(k: usize) -> u32
    requires { k < 2049 }
    ensures { result ≡ entry_at k }
{
    TABLE[k]
}

// The units of 2^-24 at u.
fn units(u: usize) -> u32
    requires { u ≤ 2097152 }
    ensures { result ≡ units_at u }
{
    let k = u / 1024;
    let r = u % 1024;
    let a = entry(k);
    if r > 0 {
        let b = entry(k + 1);
        return a + (b - a) * (r as u32) / 1024;
    }
    a
}

// u = q + 1,048,576, where q is z times 65,536 rounded toward minus infinity; the product is exact.
fn place(z: f32) -> usize
    requires { T (le (sixteen true) z) × T (le z (sixteen false)) }
    ensures { result ≡ u_of z }
{
    if z < 0.0 {
        let y = -z * 65536.0;
        let t = std::num::truncating_f32_to_u64(y);
        let w = t as f32;
        if w < y {
            1048575 - t as usize
        } else {
            1048576 - t as usize
        }
    } else {
        let y = z * 65536.0;
        let t = std::num::truncating_f32_to_u64(y);
        1048576 + t as usize
    }
}

// units/2^24, which is exact.
fn scaled(n: u32) -> f32
    requires { n ≤ 16777216 }
    ensures { result ≡ score_for n }
{
    n as f32 / 16777216.0
}

// The score of z.
pub fn score(z: f32) -> Result<f32, NotANumber>
    ensures { paper result ≡ answer_of z }
{
    if z.is_nan() {
        return Err(NotANumber);
    }
    if z < -16.0 {
        return Ok(0.0);
    }
    if z > 16.0 {
        return Ok(1.0);
    }
    Ok(scaled(units(place(z))))
}

// A window's presence score, from 0 to 1 where both are finite; a NaN where the logistic refuses.
pub fn presence_score(motion: f32, presence_threshold: f32) -> f32
    ensures { result ≡ presence_score motion presence_threshold }
{
    let z = (motion - presence_threshold) * 20.0;
    score(z).unwrap_or(z)
}
