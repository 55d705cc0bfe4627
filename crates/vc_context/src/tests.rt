use crate::jobs::{dest_back, dest_of, source_back, source_of};
use crate::laws::runs_are_back;
use crate::refusals::{create_refusal, has_work, reqbufs_refusal};
use crate::replies::{
    counted, created, no_command, no_memory, nothing_such, refused_or_blocked, taken_or_blocked,
    told, told_or_refused,
};
use std::test::Fail;
use vc_base::{Errno, Reply, Side, Stamp};
use vc_queue::hold::Hold;
use vc_queue::queue::{Lent, Queue};

fn refused(errno: Errno) -> Reply {
    Reply::Refused { errno }
}

#[test]
fn what_is_answered_is_told(rt: HostRuntime) -> Result<(), Fail> {
    let busy = refused(Errno::Busy);
    assert_eq!(rt; told(Ok(())), Reply::Done);
    assert_eq!(rt; told(Err(Errno::Busy)), busy);
    assert_eq!(rt; counted(Ok(3)), Reply::Count { count: 3 });
    assert_eq!(rt; created(Ok((1, 2))), Reply::Created { index: 1, count: 2 });
    assert_eq!(rt; told_or_refused(Ok(Reply::Done)), Reply::Done);
    assert_eq!(rt; no_command(), refused(Errno::NoTty));
    assert_eq!(rt; nothing_such(), refused(Errno::Inval));
    assert_eq!(rt; no_memory(), refused(Errno::NoMem));
    Ok(())
}

#[test]
fn waiting_helps_where_nothing_is_there(rt: HostRuntime) -> Result<(), Fail> {
    assert_eq!(rt; refused_or_blocked(true, Errno::NoEnt), Reply::Blocked);
    assert_eq!(rt; refused_or_blocked(true, Errno::Pipe), refused(Errno::Pipe));
    assert_eq!(rt; taken_or_blocked(true, Err(Errno::Again)), Reply::Blocked);
    assert_eq!(rt;
        taken_or_blocked(false, Err(Errno::Again)),
        refused(Errno::Again)
    );
    Ok(())
}

#[test]
fn queues_refuse_before_memory_is_sought(rt: HostRuntime) -> Result<(), Fail> {
    let mut hold = Hold::new();
    let mut queue = Queue::new(Side::Cap);
    assert_eq!(rt; create_refusal(&queue, 1, 0), Some(refused(Errno::Inval)));
    assert_eq!(rt; create_refusal(&queue, 1, 17694764), None);
    assert_eq!(rt; queue.reqbufs(rt.alloc(), 32, 1, &mut hold), Ok(32));
    assert_eq!(rt; create_refusal(&queue, 1, 1), Some(refused(Errno::Inval)));
    assert_eq!(rt; create_refusal(&queue, 0, 1), None);
    assert_eq!(rt; reqbufs_refusal(&queue), None);
    assert_eq!(rt; queue.streamon(1), Ok(()));
    assert_eq!(rt; reqbufs_refusal(&queue), Some(refused(Errno::Busy)));
    assert!(rt; !has_work(&queue));
    Ok(())
}

#[test]
fn buffers_go_into_a_job_and_come_back(rt: HostRuntime) -> Result<(), Fail> {
    runs_are_back();
    let lent = Lent {
        index: 3,
        used: 2,
        cursor: 1,
        stamp: Stamp(70),
        payload: vec![in rt.alloc(); 9, 8]?,
    };
    let back = source_back(3, source_of(lent));
    assert!(rt; back.index == 3 && back.used == 2 && back.cursor == 1 && back.stamp == Stamp(70));
    let payload = dest_of(back);
    let dest = dest_back(5, payload);
    assert!(rt; dest.index == 5 && dest.used == 0 && dest.payload.len() == 2);
    Ok(())
}
