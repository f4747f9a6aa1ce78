//! The bytes of windows.
ghost use Rattle.std.specs.{Prelude.{◌≡◌, ◌≤◌, ◌++◌, ◌+◌, length, map, IfOk, OnOk}, Int.Digits.digits_of};
ghost use Rattle.text_deltas.specs.{Bounds.IsBounded, Deltas.{copy, head, instructions, integer, new_data, parts_of, sized, window}};

use crate::shared::{REACH, Shared};
use std::alloc::{AllocError, Global};

/// The parts of a window, in bytes.
#[derive(Clone, Copy)]
struct Parts {
    /// Where its view begins in the text before.
    start: usize,
    /// The length of its view.
    view: usize,
    /// The length of what it copies first, and where that is in the view.
    front: usize,
    front_from: usize,
    /// How many of its bytes are new.
    fresh: usize,
    /// The length of what it copies last, and where that is in the view.
    back: usize,
    back_from: usize,
}

/// Appends the groups of a number, all with the high bit.
fn put_groups(out: &mut Vec<u8>, n: usize) -> Result<(), AllocError>
    ensures { OnOk result (out.new.items ≡ out.old.items ++ map (λ d. 128 + d) (digits_of 128 n)) }
{
    if n == 0 {
        return Ok(());
    }
    put_groups(out, n / 128)?;
    out.extend_from_slice(&[128 + (n % 128) as u8])?;
    Ok(())
}

/// Appends an integer.
#[tactic(auto, unfolding(crate::specs::Deltas::integer))]
fn put_integer(out: &mut Vec<u8>, n: usize) -> Result<(), AllocError>
    ensures { OnOk result (out.new.items ≡ out.old.items ++ integer n) }
{
    put_groups(out, n / 128)?;
    out.extend_from_slice(&[(n % 128) as u8])
}

/// Appends a length with a kind.
#[tactic(auto, unfolding(crate::specs::Deltas::sized))]
fn put_sized(out: &mut Vec<u8>, kind: u8, n: usize) -> Result<(), AllocError>
    requires { kind ≤ 128 }
    ensures { OnOk result (out.new.items ≡ out.old.items ++ sized kind n) }
{
    if n < 64 {
        return out.extend_from_slice(&[kind + n as u8]);
    }
    out.extend_from_slice(&[kind])?;
    put_integer(out, n)
}

/// Appends a copy, unless it is of no bytes.
#[tactic(auto, unfolding(crate::specs::Deltas::copy))]
fn put_copy(out: &mut Vec<u8>, from: usize, n: usize) -> Result<(), AllocError>
    ensures { OnOk result (out.new.items ≡ out.old.items ++ copy from n) }
{
    if n == 0 {
        return Ok(());
    }
    put_sized(out, 0, n)?;
    put_integer(out, from)
}

/// Appends new data, unless it is of no bytes.
#[tactic(auto, unfolding(crate::specs::Deltas::new_data))]
fn put_new_data(out: &mut Vec<u8>, n: usize) -> Result<(), AllocError>
    ensures { OnOk result (out.new.items ≡ out.old.items ++ new_data n) }
{
    if n == 0 {
        return Ok(());
    }
    put_sized(out, 128, n)
}

/// Appends the five integers of a window of `n` bytes, with so many bytes of instructions.
#[tactic(auto, unfolding(crate::specs::Deltas::head))]
fn put_head(out: &mut Vec<u8>, parts: Parts, n: usize, section: usize) -> Result<(), AllocError>
    ensures { OnOk result (out.new.items ≡ out.old.items ++ head parts n section) }
{
    put_integer(out, parts.start)?;
    put_integer(out, parts.view)?;
    put_integer(out, n)?;
    put_integer(out, section)?;
    put_integer(out, parts.fresh)
}

/// Makes the instructions of a window.
#[tactic(auto, unfolding(crate::specs::Deltas::instructions))]
fn make_instructions(alloc: Global, parts: Parts) -> Result<Vec<u8>, AllocError>
    ensures { IfOk result (λ bytes. bytes.items ≡ instructions parts) }
{
    let mut section = Vec::new(alloc);
    put_copy(&mut section, parts.front_from, parts.front)?;
    put_new_data(&mut section, parts.fresh)?;
    put_copy(&mut section, parts.back_from, parts.back)?;
    Ok(section)
}

/// Finds the parts of a window of `n` bytes, from this place of the text on.
fn parts_of(shared: Shared, at: usize, n: usize) -> Parts
    requires shared { IsBounded shared }
    requires within { at + n ≤ shared.text }
    ensures { result ≡ parts_of shared at n }
{
    let front = n.min(shared.front.saturating_sub(at));
    let back = (n - front).min((at + n).saturating_sub(shared.text - shared.back));
    let fresh = n - (front + back);
    let start = shared.before.min(at.saturating_sub(REACH));
    let end = shared.before.min(at + n + REACH);
    Parts {
        start,
        view: end - start,
        front,
        front_from: at - start,
        fresh,
        back,
        back_from: (at + front + fresh + shared.before).saturating_sub(shared.text + start),
    }
}

/// Makes the window that gives a part of a text, which begins at this place.
#[tactic(auto, unfolding(crate::specs::Deltas::window))]
pub(crate) fn window(
    alloc: Global,
    shared: Shared,
    at: usize,
    part: &[u8],
) -> Result<Vec<u8>, AllocError>
    requires shared { IsBounded shared }
    requires within { at + length part.now ≤ shared.text }
    ensures { IfOk result (λ bytes. bytes.items ≡ window shared at part.now) }
{
    let parts = parts_of(shared, at, part.len());
    let section = make_instructions(alloc, parts)?;
    let mut out = Vec::new(alloc);
    put_head(&mut out, parts, part.len(), section.len())?;
    out.extend_from_slice(section.as_slice())?;
    out.extend_from_slice(&part[parts.front..parts.front + parts.fresh])?;
    Ok(out)
}
