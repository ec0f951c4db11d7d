// The links by hand-made cases, and both against the model over mixed calls.
use crate::carry::put_and_look;
use crate::model::{Kind, Sent, fault, frame_len, is_open, oldest, word, words_of};
use buses::Bus;
use crossbars::Crossbar;
use faults::{Call, Cause};
use links::Link;
use std::process::Abort;
use std::test::*;

fn bus(rt: HostRuntime, boards: usize, len: usize) -> Result<Bus, Fail> {
    let words = vec![in rt.alloc(); 0; len]?;
    Bus::new(boards, words).map_err(|_| Fail::new("a bus is refused"))
}

#[test]
fn a_full_bus_opens_again(rt: HostRuntime) -> Result<(), Fail> {
    let mut link = bus(rt, 2, 68)?;
    assert_eq!(rt; link.room(), 68);
    assert_eq!(rt; link.put(0, &[7]), Ok(()));
    assert_eq!(rt; link.room(), 65);
    assert_eq!(rt;
        link.put(1, &[8]),
        Err(fault(Call::Put, Cause::Closed { board: 1 }))
    );
    assert_eq!(rt; link.discard(0), Ok(()));
    assert_eq!(rt; link.put(1, &[8]), Ok(()));
    let mut buffer = [9; 64];
    assert_eq!(rt; link.look(1, &mut buffer), Ok(1));
    assert_eq!(rt; buffer[0], 8);
    assert_eq!(rt; buffer[1], 9);
    Ok(())
}

#[test]
fn a_drop_on_the_bus_keeps_the_order_of_the_others(rt: HostRuntime) -> Result<(), Fail> {
    let mut link = bus(rt, 3, 200)?;
    assert_eq!(rt; link.put(2, &[1]), Ok(()));
    assert_eq!(rt; link.put(0, &[2, 3]), Ok(()));
    assert_eq!(rt; link.put(2, &[4, 5, 6]), Ok(()));
    assert_eq!(rt; link.put(0, &[7]), Ok(()));
    assert_eq!(rt; link.discard(0), Ok(()));
    let mut buffer = [0; 64];
    assert_eq!(rt; link.look(0, &mut buffer), Ok(1));
    assert_eq!(rt; buffer[0], 7);
    assert_eq!(rt; link.look(2, &mut buffer), Ok(1));
    assert_eq!(rt; buffer[0], 1);
    assert_eq!(rt; link.discard(2), Ok(()));
    assert_eq!(rt; link.look(2, &mut buffer), Ok(3));
    assert_eq!(rt; buffer[2], 6);
    assert_eq!(rt; link.room(), 200 - 5 - 3);
    Ok(())
}

#[test]
fn a_crossbar_holds_one_frame_for_each_board(rt: HostRuntime) -> Result<(), Fail> {
    let mut link = Crossbar::new(16)?;
    assert_eq!(rt; link.put(15, &[1; 64]), Ok(()));
    assert_eq!(rt; link.put(0, &[2]), Ok(()));
    assert_eq!(rt;
        link.put(15, &[3]),
        Err(fault(Call::Put, Cause::Closed { board: 15 }))
    );
    let mut buffer = [9; 65];
    assert_eq!(rt; link.look(15, &mut buffer), Ok(64));
    assert_eq!(rt; buffer[63], 1);
    assert_eq!(rt; buffer[64], 9);
    assert_eq!(rt; link.discard(15), Ok(()));
    assert_eq!(rt;
        link.discard(15),
        Err(fault(Call::Drop, Cause::Nothing { board: 15 }))
    );
    assert_eq!(rt; put_and_look(&mut link, 15, &[4, 5], &mut buffer), Ok(2));
    assert_eq!(rt; buffer[1], 5);
    Ok(())
}

// The causes of each call from the first to the last, on a link for two boards with a frame for board 0.
fn refuses_in_order<L: Link>(rt: &impl Abort, link: &mut L) -> Result<(), Fail> {
    let long = [0; 65];
    let mut short = [9; 63];
    let mut buffer = [9; 64];
    assert_eq!(rt;
        link.put(2, &[]),
        Err(fault(Call::Put, Cause::Board { number: 2 }))
    );
    assert_eq!(rt;
        link.put(0, &[]),
        Err(fault(Call::Put, Cause::Length { due: 64 }))
    );
    assert_eq!(rt;
        link.put(0, &long),
        Err(fault(Call::Put, Cause::Length { due: 64 }))
    );
    assert_eq!(rt;
        link.put(0, &[1]),
        Err(fault(Call::Put, Cause::Closed { board: 0 }))
    );
    assert_eq!(rt;
        link.look(2, &mut short),
        Err(fault(Call::Look, Cause::Board { number: 2 }))
    );
    assert_eq!(rt;
        link.look(1, &mut short),
        Err(fault(Call::Look, Cause::Length { due: 64 }))
    );
    assert_eq!(rt;
        link.look(1, &mut buffer),
        Err(fault(Call::Look, Cause::Nothing { board: 1 }))
    );
    assert_eq!(rt;
        link.discard(2),
        Err(fault(Call::Drop, Cause::Board { number: 2 }))
    );
    assert_eq!(rt;
        link.discard(1),
        Err(fault(Call::Drop, Cause::Nothing { board: 1 }))
    );
    assert_eq!(rt; short[0], 9);
    assert_eq!(rt; buffer[0], 9);
    Ok(())
}

#[test]
fn both_links_refuse_in_the_same_order(rt: HostRuntime) -> Result<(), Fail> {
    let mut shared = bus(rt, 2, 66)?;
    assert_eq!(rt; shared.put(0, &[1]), Ok(()));
    refuses_in_order(&rt, &mut shared)?;
    let mut switch = Crossbar::new(2)?;
    assert_eq!(rt; switch.put(0, &[1]), Ok(()));
    refuses_in_order(&rt, &mut switch)
}

#[test]
fn a_link_is_made_within_its_limits(rt: HostRuntime) -> Result<(), Fail> {
    assert!(rt; Crossbar::new(0).is_err());
    assert!(rt; Crossbar::new(17).is_err());
    assert!(rt; Crossbar::new(1).is_ok());
    let words = vec![in rt.alloc(); 5; 65]?;
    let Err(many) = Bus::new(17, words) else {
        return Err(Fail::new("17 boards pass"));
    };
    assert_eq!(rt; many.fault, fault(Call::Make, Cause::Board { number: 17 }));
    let Err(short) = Bus::new(16, many.words) else {
        return Err(Fail::new("65 words pass"));
    };
    assert_eq!(rt; short.fault, fault(Call::Make, Cause::Length { due: 66 }));
    assert_eq!(rt; short.words.len(), 65);
    let words = bus(rt, 16, 66)?.into_words();
    assert_eq!(rt; words.len(), 66);
    Ok(())
}

// A put of the frame of a number, on a link for 4 boards and on the model.
fn put_both<L: Link>(
    rt: &impl Abort,
    link: &mut L,
    kind: Kind,
    sent: &mut Vec<Sent>,
    number: u32,
    board: usize,
) -> Result<(), Fail> {
    let words = words_of(number);
    let answer = link.put(board, &words[0..frame_len(number)]);
    if board >= 4 {
        assert_eq!(rt;
            answer,
            Err(fault(Call::Put, Cause::Board { number: board }))
        );
        return Ok(());
    }
    if !is_open(kind, sent, board) {
        assert_eq!(rt; answer, Err(fault(Call::Put, Cause::Closed { board })));
        return Ok(());
    }
    sent.push(Sent { board, number })?;
    assert_eq!(rt; answer, Ok(()));
    Ok(())
}

// A look and a drop, on a link for 4 boards and on the model.
fn drop_both<L: Link>(
    rt: &impl Abort,
    link: &mut L,
    sent: &mut Vec<Sent>,
    board: usize,
) -> Result<(), Fail> {
    let mut buffer = [9; 64];
    let seen = link.look(board, &mut buffer);
    let answer = link.discard(board);
    let place = oldest(sent, board);
    if board >= 4 {
        assert_eq!(rt;
            answer,
            Err(fault(Call::Drop, Cause::Board { number: board }))
        );
        return Ok(());
    }
    let Some(at) = place else {
        assert_eq!(rt; seen, Err(fault(Call::Look, Cause::Nothing { board })));
        assert_eq!(rt; answer, Err(fault(Call::Drop, Cause::Nothing { board })));
        return Ok(());
    };
    assert!(rt; at < sent.len());
    let first = sent.remove(at);
    let len = frame_len(first.number);
    assert_eq!(rt; seen, Ok(len));
    for (i, w) in buffer.iter().enumerate() {
        let due = if i < len { word(first.number, i) } else { 9 };
        assert_eq!(rt; *w, due);
    }
    assert_eq!(rt; answer, Ok(()));
    Ok(())
}

// A thousand puts and drops at random, and then drops until nothing is left.
fn follows_the_model<L: Link>(
    rt: &(impl Abort + AllocGlobal),
    link: &mut L,
    kind: Kind,
) -> Result<(), Fail> {
    let mut sent = Vec::new(rt.alloc());
    let mut x: u32 = 2026;
    for number in 0..1000 {
        x = x.wrapping_mul(1664525).wrapping_add(1013904223);
        let board = ((x >> 16) % 5) as usize;
        if x >> 30 < 2 {
            put_both(rt, link, kind, &mut sent, number, board)?;
        } else {
            drop_both(rt, link, &mut sent, board)?;
        }
    }
    for board in 0..4 {
        for _ in 0..200 {
            drop_both(rt, link, &mut sent, board)?;
        }
    }
    assert!(rt; sent.is_empty());
    Ok(())
}

#[test]
fn a_bus_follows_the_model(rt: HostRuntime) -> Result<(), Fail> {
    let mut link = bus(rt, 4, 500)?;
    follows_the_model(&rt, &mut link, Kind::Bus { words: 500 })?;
    assert_eq!(rt; link.room(), 500);
    Ok(())
}

#[test]
fn a_crossbar_follows_the_model(rt: HostRuntime) -> Result<(), Fail> {
    let mut link = Crossbar::new(4)?;
    follows_the_model(&rt, &mut link, Kind::Crossbar)
}
