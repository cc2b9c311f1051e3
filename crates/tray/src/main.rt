// A small tray: contacts come in, take a colour and a place in that colour's bucket, and are struck
// out again.
#![tactic(auto)]

mod buckets;
mod story;
mod tray;

use std::io;

fn main(rt: HostRuntime) -> io::Result<()> {
    story::tell(&rt)
}
