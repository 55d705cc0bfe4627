//! The padding of a small plane.

use super::*;

#[test]
fn edges_are_repeated(rt: HostRuntime) {
    let plane = [10, 20, 30, 40, 50, 60];
    let mut block = [0; 64];
    copy_block(&plane, 3, 2, &spot_of(3, 2, 0), &mut block);
    assert_eq!(rt;
        &block[..10],
        [10, 20, 30, 30, 30, 30, 30, 30, 40, 50].as_slice()
    );
    assert_eq!(rt; block[63], 60);

    let mut wide = [0; 72];
    set_block(&mut wide, 9, 8, &spot_of(9, 8, 1), &[7; 64]);
    set_block(&mut wide, 9, 8, &spot_of(9, 8, 0), &[1; 64]);
    assert_eq!(rt; &wide[..10], [1, 1, 1, 1, 1, 1, 1, 1, 7, 1].as_slice());
    copy_block(&wide, 9, 8, &spot_of(9, 8, 1), &mut block);
    assert_eq!(rt; block, [7; 64]);
}
