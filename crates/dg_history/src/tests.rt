use crate::Stacks;
use std::test::Fail;

// Two entries are undone, one is done again, and a new one in its place ends what could be done again.
#[test]
fn goes_back_and_forth(rt: HostRuntime) -> Result<(), Fail> {
    let mut stacks = Stacks::new(rt.alloc());
    assert!(rt; !stacks.undo());
    stacks.record(10)?;
    stacks.record(20)?;
    stacks.record(30)?;
    assert!(rt; stacks.undo());
    assert!(rt; stacks.undo());
    assert_eq!(rt; stacks.peek_undo().copied(), Some(10));
    assert_eq!(rt; stacks.peek_redo().copied(), Some(20));
    assert!(rt; stacks.redo());
    assert_eq!(rt; stacks.peek_undo().copied(), Some(20));
    assert_eq!(rt; stacks.peek_redo().copied(), Some(30));
    stacks.record(40)?;
    assert!(rt; !stacks.redo());
    assert_eq!(rt; stacks.undo_len(), 3);
    assert_eq!(rt; stacks.redo_len(), 0);
    assert_eq!(rt; stacks.peek_undo().copied(), Some(40));
    Ok(())
}
