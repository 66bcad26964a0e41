// What a piece of a stream adds to the frame that is begun.
ghost use Rattle.std.specs.Prelude.{◌≡◌, ◌++◌, length, take, IfOk, OnErr, OnOk};
ghost use Rattle.std.specs.Option.{ForNone};
ghost use Rattle.ov_frames.specs.Feeding.{Adds, IsApart, IsCompleted, IsFilled};
ghost use Rattle.ov_frames.specs.Streams as streams;
ghost use Rattle.ov_frames.specs.Streams.{Spells, left_of};
ghost use Rattle.ov_frames.specs.declared.front.Front.TheVariants.{Begun};

use crate::fault::FrameFault;
use crate::front::{Front, front_end, front_of};
use crate::request::Request;
use std::alloc::{AllocError, Global};

// How far the whole good frames at the front of bytes go, and the fault behind them.
#[derive(Clone, Copy)]
struct Apart {
    used: usize,
    fault: Option<FrameFault>,
}

// Adds the requests of the whole good frames at the front of bytes.
fn take_apart(alloc: Global, requests: &mut Vec<Request>, bytes: &[u8]) -> Result<Apart, AllocError>
    ensures { IfOk result (λ apart. IsApart requests.old.items requests.new.items bytes.now apart) }
{
    let mut used = 0;
    'frames: loop {
        match front_of(alloc, &bytes[used..])? {
            Front::Whole(request, len) => {
                requests.push(request)?;
                used += len;
            }
            Front::Begun => return Ok(Apart { used, fault: None }),
            Front::Bad(fault) => {
                return Ok(Apart {
                    used,
                    fault: Some(fault),
                });
            }
        }
    }
}

// Holds what is left behind the whole good frames: a begun frame, with room for all of it; nothing
// where a fault stands.
fn hold(held: &mut Vec<u8>, fault: Option<FrameFault>, bytes: &[u8]) -> Result<(), AllocError>
    ensures ok { OnOk result (left_of fault held.new.items ≡ left_of fault bytes.now) }
    ensures err { OnErr result (held.new.items ≡ held.old.items) }
{
    if fault.is_some() || bytes.is_empty() {
        held.clear();
        return Ok(());
    }
    held.reserve(front_end(bytes).max(bytes.len()))?;
    held.clear();
    held.extend_from_slice(bytes)?;
    Ok(())
}

// Adds the requests of bytes that begin with a frame, and holds what is left behind them.
fn go_on(
    alloc: Global,
    held: &mut Vec<u8>,
    requests: &mut Vec<Request>,
    bytes: &[u8],
) -> Result<Option<FrameFault>, AllocError>
    ensures ok { IfOk result (λ fault.
        Adds requests.old.items requests.new.items bytes.now (left_of fault held.new.items)) }
    ensures err { OnErr result (held.new.items ≡ held.old.items) }
{
    let Apart { used, fault } = take_apart(alloc, requests, bytes)?;
    hold(held, fault, &bytes[used..])?;
    Ok(fault)
}

// Adds bytes of the piece until so many are held or the piece ends, and answers how many. Room for
// all that lacks is made at once.
fn fill(held: &mut Vec<u8>, end: usize, piece: &[u8]) -> Result<usize, AllocError>
    ensures ok { IfOk result (λ count. IsFilled held.old.items end piece.now held.new.items count) }
    ensures err { OnErr result (held.new.items ≡ held.old.items) }
{
    let lacking = end.saturating_sub(held.len());
    held.reserve(lacking)?;
    let count = lacking.min(piece.len());
    held.extend_from_slice(&piece[..count])?;
    Ok(count)
}

// Adds the bytes that the begun frame lacks, first of its length and then of what that counts.
// Answers what stands there then, and how many bytes of the piece it took.
fn complete(alloc: Global, held: &mut Vec<u8>, piece: &[u8]) -> Result<(Front, usize), AllocError>
    requires { streams.front_of held.old.items ≡ Begun }
    ensures ok { IfOk result (λ x. IsCompleted held.old.items piece.now held.new.items x.0 x.1) }
    ensures err { OnErr result (take (length held.old.items) held.new.items ≡ held.old.items) }
{
    let first = fill(held, front_end(held.as_slice()), piece)?;
    let second = fill(held, front_end(held.as_slice()), &piece[first..])?;
    let front = front_of(alloc, held.as_slice())?;
    Ok((front, first + second))
}

/// The requests that a piece made whole, and the fault behind them.
#[derive(Drop)]
pub(crate) struct Fed {
    pub(crate) requests: Vec<Request>,
    pub(crate) fault: Option<FrameFault>,
}

/// Feeds a piece behind the bytes of the frame that is begun. Where memory runs out, bytes may
/// stand behind those that were held.
pub(crate) fn feed_piece(alloc: Global, held: &mut Vec<u8>, piece: &[u8]) -> Result<Fed, AllocError>
    requires { streams.front_of held.old.items ≡ Begun }
    ensures ok { IfOk result (λ fed. Spells (held.old.items ++ piece.now) fed.requests.items
        (left_of fed.fault held.new.items)) }
    ensures begun { IfOk result (λ fed.
        ForNone fed.fault (streams.front_of held.new.items ≡ Begun)) }
    ensures err { OnErr result (take (length held.old.items) held.new.items ≡ held.old.items) }
{
    let mut requests = Vec::new(alloc);
    if held.is_empty() {
        let fault = go_on(alloc, held, &mut requests, piece)?;
        return Ok(Fed { requests, fault });
    }
    let (front, used) = complete(alloc, held, piece)?;
    match front {
        Front::Whole(request, _) => {
            requests.push(request)?;
            let fault = go_on(alloc, held, &mut requests, &piece[used..])?;
            Ok(Fed { requests, fault })
        }
        Front::Begun => Ok(Fed {
            requests,
            fault: None,
        }),
        Front::Bad(fault) => {
            held.clear();
            Ok(Fed {
                requests,
                fault: Some(fault),
            })
        }
    }
}
