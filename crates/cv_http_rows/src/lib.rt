//! Rows of requests and responses: streams that are cut into pieces, limits at their edges, and responses byte by byte.
#![tactic(auto)]

use cv_http::{Feed, HttpFault, Request};
use std::alloc::{AllocError, Global};

#[cfg(test)]
mod cuts;
#[cfg(test)]
mod faults;
#[cfg(test)]
mod limits;
#[cfg(test)]
mod responses;

/// What a feed made of a stream.
#[derive(Drop)]
pub struct Reading {
    pub requests: Vec<Request>,
    pub fault: Option<HttpFault>,
    /// What the feed says of the bytes that it was given.
    pub empty: bool,
}

fn take_all(feed: &mut Feed, requests: &mut Vec<Request>) -> Result<(), AllocError> {
    for _ in 0..u16::MAX {
        let Some(request) = feed.take() else {
            return Ok(());
        };
        requests.push(request)?;
    }
    Ok(())
}

/// Feeds the stream in pieces of 1 to `most` bytes, as the seed has them.
pub fn fed(alloc: Global, stream: &[u8], most: u32, mut seed: u32) -> Result<Reading, AllocError> {
    let mut feed = Feed::new(alloc)?;
    let mut requests = Vec::new(alloc);
    let mut fault = None;
    let mut left = stream;
    for _ in 0..stream.len() {
        if left.is_empty() || fault.is_some() {
            break;
        }
        seed = seed.wrapping_mul(1_664_525).wrapping_add(1_013_904_223);
        let len = (seed >> 8) % most.max(1) + 1;
        let (piece, rest) = left.split_at(left.len().min(len as usize));
        left = rest;
        fault = feed.push(alloc, piece).err();
        take_all(&mut feed, &mut requests)?;
    }
    // A fault that was told once is told again, whatever comes.
    if fault.is_some() && feed.push(alloc, b"GET / HTTP/1.1\r\n\r\n").err() != fault {
        fault = None;
    }
    let empty = feed.empty();
    Ok(Reading {
        requests,
        fault,
        empty,
    })
}
