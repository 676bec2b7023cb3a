//! The loop over connections in memory, which are reported as a test says.
use crate::clients::{TESS, TOM, opened};
use crate::lines::{Line, Script, Two};
use crate::many::{Nobody, sample};
use counter_door::{Entrance, Ready};
use counter_loop::serve;
use mio::Poll;
use std::io;
use std::test::Fail;

/// Serves the sample to two connections, with these reports.
fn serve_lines(
    rt: &HostRuntime,
    door: &mut Entrance<Two<'_>>,
    rounds: &[&[Ready]],
) -> Result<io::Result<()>, Fail> {
    let alloc = rt.alloc();
    let mut counter = sample(rt)?;
    let mut system = Script {
        rt,
        poll: Poll::new(rt)?,
        rounds,
        next: 0,
    };
    let (_parted, done) = serve(alloc, &mut system, door, &mut counter, &mut Nobody);
    Ok(done)
}

#[test]
fn message_in_pieces_is_answered_beside_two_in_one(rt: HostRuntime) -> Result<(), Fail> {
    let alloc = rt.alloc();
    let mut two = String::new(alloc);
    two.push_str(TOM)?;
    two.push_str(TOM)?;
    let pieces = [
        Some("POST /sess"),
        None,
        Some("ion HTTP/1.1\r\nHost: bank\r\nBank-"),
        None,
        Some("Badge: tess\r\n\r\n"),
        None,
    ];
    let whole = [Some(two.as_str()), None];
    let mut of_tess = Vec::new(alloc);
    let mut of_tom = Vec::new(alloc);
    let mut door = Entrance::new(Two {
        first: Some(Line {
            reads: &pieces,
            next: 0,
            got: &mut of_tess,
        }),
        second: Some(Line {
            reads: &whole,
            next: 0,
            got: &mut of_tom,
        }),
    });
    let ended = serve_lines(
        &rt,
        &mut door,
        &[
            &[Ready::Connection(0), Ready::Connection(1)],
            &[Ready::Connection(0)],
            &[Ready::Connection(0)],
            &[Ready::End],
        ],
    )?;
    drop(door);
    assert!(rt; ended.is_ok());
    assert!(rt; of_tess.as_slice() == opened(alloc, 2)?.as_bytes());
    let mut replies = opened(alloc, 2)?;
    replies.push_str(opened(alloc, 3)?.as_str())?;
    assert!(rt; of_tom.as_slice() == replies.as_bytes());
    Ok(())
}

#[test]
fn loop_without_an_end_is_an_error(rt: HostRuntime) -> Result<(), Fail> {
    let alloc = rt.alloc();
    let whole = [Some(TESS), None];
    let mut of_tess = Vec::new(alloc);
    let mut door = Entrance::new(Two {
        first: Some(Line {
            reads: &whole,
            next: 0,
            got: &mut of_tess,
        }),
        second: None,
    });
    let ended = serve_lines(&rt, &mut door, &[&[Ready::Connection(0)]])?;
    drop(door);
    assert!(rt; ended.is_err());
    assert!(rt; of_tess.as_slice() == opened(alloc, 2)?.as_bytes());
    Ok(())
}
