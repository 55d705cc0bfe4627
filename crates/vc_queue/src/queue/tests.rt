use crate::hold::Hold;
use crate::queue::Queue;
use std::test::Fail;
use vc_base::{Reply, Side, Stamp};

#[test]
fn buffers_are_made_and_queued(rt: HostRuntime) -> Result<(), Fail> {
    let mut hold = Hold::new();
    let mut queue = Queue::new(Side::Out);
    assert_eq!(rt; queue.reqbufs(rt.alloc(), 2, 4, &mut hold), Ok(2));
    assert_eq!(rt; queue.create(rt.alloc(), 1, 8, &mut hold), Ok((2, 1)));
    assert_eq!(rt; queue.buffers(), 3);
    assert_eq!(rt; queue.streamon(4), Ok(()));
    assert!(rt; queue.is_streaming());
    assert_eq!(rt; hold.payload(Side::Out, 2).map(|p| p.len()), Some(8));
    assert!(rt; queue.queued() == 0);
    assert_eq!(rt; queue.qbuf(2, 5, Stamp(70), 4, &mut hold), Ok(()));
    assert!(rt; hold.payload(Side::Out, 2).is_none());
    let info = Reply::Info {
        index: 2,
        length: 8,
        flags: 2,
    };
    assert_eq!(rt; queue.querybuf(2), Ok(info));
    assert_eq!(rt; queue.front_ordinal(), Some(0));
    assert!(rt; queue.has_before(1));
    assert!(rt; queue.long_enough(8));
    queue.streamoff(&mut hold);
    assert!(rt; !queue.is_streaming());
    assert_eq!(rt; hold.payload(Side::Out, 2).map(|p| p.len()), Some(8));
    Ok(())
}

#[test]
fn a_buffer_is_lent_and_comes_back(rt: HostRuntime) -> Result<(), Fail> {
    let mut hold = Hold::new();
    let mut queue = Queue::new(Side::Out);
    assert_eq!(rt; queue.reqbufs(rt.alloc(), 1, 8, &mut hold), Ok(1));
    assert_eq!(rt; queue.streamon(8), Ok(()));
    assert!(rt; queue.queued() == 0);
    assert_eq!(rt; queue.qbuf(0, 5, Stamp(70), 8, &mut hold), Ok(()));
    assert!(rt; queue.front_ordinal().is_some() && !queue.is_lent());
    let lent = queue.lend();
    assert_eq!(rt; queue.queued_with(), Some((5, Stamp(70))));
    queue.give_back(lent);
    assert!(rt; queue.front_ordinal().is_some() && !queue.is_lent());
    let lent = queue.lend();
    assert!(rt; queue.retired() == 0);
    queue.retire(lent, 5, 8, Stamp(70));
    assert_eq!(rt; queue.done_len(), 1);
    let taken = Reply::Taken {
        index: 0,
        used: 5,
        flags: 8,
        seq: 0,
        stamp: Stamp(70),
    };
    assert_eq!(rt; queue.dqbuf(false, &mut hold), Ok(taken));
    Ok(())
}

/// The payloads of two holds before an exchange.
#[derive(Clone, Copy)]
struct Exchange {
    mine: [u8; 3],
    others: [u8; 3],
}

#[test]
fn an_exchange_gives_each_the_bytes_of_the_other(rt: HostRuntime) -> Result<(), Fail> {
    let rows = [
        Exchange {
            mine: [1, 2, 3],
            others: [7, 8, 9],
        },
        Exchange {
            mine: [0, 0, 0],
            others: [0, 255, 0],
        },
    ];
    for row in rows {
        let mut mine = Hold::new();
        let mut others = Hold::new();
        mine.put(Side::Out, 0, Vec::from_array(rt.alloc(), row.mine)?);
        others.put(Side::Cap, 4, Vec::from_array(rt.alloc(), row.others)?);
        mine.exchange(Side::Out, 0, &mut others, Side::Cap, 4);
        assert_eq!(rt; mine.payload(Side::Out, 0), Some(&row.others[..]));
        assert_eq!(rt; others.payload(Side::Cap, 4), Some(&row.mine[..]));
        assert!(rt; mine.payload(Side::Cap, 4).is_none());
    }
    Ok(())
}

#[test]
fn what_is_written_goes_over_the_front(rt: HostRuntime) -> Result<(), Fail> {
    let mut hold = Hold::new();
    hold.put(Side::Out, 0, vec![in rt.alloc(); 1, 2, 3]?);
    hold.write(Side::Out, 0, &[5, 6]);
    assert_eq!(rt; hold.payload(Side::Out, 0), Some(&[5, 6, 3][..]));
    Ok(())
}

#[test]
fn new_buffers_are_zeros_and_ask_for_memory_only_where_there_are_some(
    rt: HostRuntime,
) -> Result<(), Fail> {
    let mut hold = Hold::new();
    let mut queue = Queue::new(Side::Cap);
    assert_eq!(rt; queue.reqbufs(rt.alloc(), 0, 4, &mut hold), Ok(0));
    assert_eq!(rt; queue.create(rt.alloc(), 0, 4, &mut hold), Ok((0, 0)));
    assert_eq!(rt; queue.create(rt.alloc(), 1, 4, &mut hold), Ok((0, 1)));
    assert_eq!(rt; hold.payload(Side::Cap, 0), Some(&[0, 0, 0, 0][..]));
    Ok(())
}
