//! The operations of a worked list, each with its reply.
use crate::said::replies;
use std::test::Fail;

/// Two cells with instances and nets, and a leaf.
const BOARD: &str =
    "(edif f (edifVersion 2 0 0) (edifLevel 0) (keywordMap (keywordLevel 0)) (library w (edifLevel 0) (technology (numberDefinition)) (cell P (cellType GENERIC) (view v (viewType NETLIST) (interface (port a (direction INOUT))))) (cell C (cellType GENERIC) (view v (viewType NETLIST) (interface (port p (direction INOUT)) (port q (direction INOUT)) (port r (direction INOUT))) (contents (instance j (viewRef v (cellRef P))) (instance k (viewRef v (cellRef P))) (net m (joined (portRef p) (portRef q) (portRef a (instanceRef j)))) (net s (joined (portRef a (instanceRef k))))))) (cell T (cellType GENERIC) (view v (viewType NETLIST) (interface) (contents (instance i (viewRef v (cellRef C))) (instance i_j (viewRef v (cellRef P))) (net X (joined (portRef p (instanceRef i)))) (net Y (joined (portRef q (instanceRef i)) (portRef a (instanceRef i_j)))) (net Z (joined (portRef r (instanceRef i)))))))) (design T (cellRef T (libraryRef w))))";

/// A library with a block, and a later one with a leaf; there is no top.
const LATER: &str =
    "(edif f (edifVersion 2 0 0) (edifLevel 0) (keywordMap (keywordLevel 0)) (library w (edifLevel 0) (technology (numberDefinition)) (cell T (cellType GENERIC) (view v (viewType NETLIST) (interface) (contents)))) (library z (edifLevel 0) (technology (numberDefinition)) (cell Q (cellType GENERIC) (view v (viewType NETLIST) (interface)))))";

/// A chain of blocks, each with two instances of the one before it.
const CHAIN: &str =
    "(edif f (edifVersion 2 0 0) (edifLevel 0) (keywordMap (keywordLevel 0)) (library w (edifLevel 0) (technology (numberDefinition)) (cell c0 (cellType GENERIC) (view v (viewType NETLIST) (interface))) (cell c1 (cellType GENERIC) (view v (viewType NETLIST) (interface) (contents (instance a (viewRef v (cellRef c0))) (instance b (viewRef v (cellRef c0)))))) (cell c2 (cellType GENERIC) (view v (viewType NETLIST) (interface) (contents (instance a (viewRef v (cellRef c1))) (instance b (viewRef v (cellRef c1)))))) (cell c3 (cellType GENERIC) (view v (viewType NETLIST) (interface) (contents (instance a (viewRef v (cellRef c2))) (instance b (viewRef v (cellRef c2))))))) (design c3 (cellRef c3 (libraryRef w))))";

/// Each single operation, done and refused.
const LIST: &str = "begin
show-cell x T
show-cell w Q
show-cell w T
show-net w T N
show-net w T Y
show-inst w T z
show-inst w T i
add-cell w p leaf
add-cell w D empty a:in b:out:4
add-net w P n
add-net w T x
add-net w T n
drop-net w T n
drop-net w T n
add-inst w C t w T
add-inst w T d w D
join w T X z a 0
join w T X d c 0
join w T X d b 4
join w T X i_j a 0
cut w T i_j a 0
cut w T i_j a 0
join w T X i_j a 0
drop-inst w T d
drop-inst w T d
set-prop w T net X K true
set-prop w T net N K true
set-note i/j K int 1
set-note i/zz K int 1
drop-note i/j K
drop-note i/j K
commit
";

/// What they reply, one behind the other.
const LIST_REPLIES: &str = "no-lib
no-cell
cell ports 0 insts 2 nets 3
no-net
ends i q 0; i_j a 0
no-inst
inst w C
taken
done
is-leaf
taken
done
done
no-net
is-cyclic
done
no-inst
no-port
bad-bit 4
already-joined Y
done
not-joined
done
done
no-inst
done
no-net
done
no-path
done
no-note
";

#[test]
fn each_operation_of_the_worked_list_replies_as_it_says(rt: HostRuntime) -> Result<(), Fail> {
    let found = replies(rt.alloc(), BOARD.as_bytes(), LIST)?;
    assert!(rt; found.as_slice() == LIST_REPLIES.as_bytes());
    Ok(())
}

#[test]
fn a_later_library_and_a_cycle_are_refused(rt: HostRuntime) -> Result<(), Fail> {
    let later = replies(
        rt.alloc(),
        LATER.as_bytes(),
        "begin\nadd-inst w T q z Q\nset-note q K true\ncommit\n",
    )?;
    assert!(rt; later.as_slice() == "later-library\nno-top\n".as_bytes());
    let cycle = replies(
        rt.alloc(),
        CHAIN.as_bytes(),
        "begin\nadd-inst w c1 x w c3\ncommit\n",
    )?;
    assert!(rt; cycle.as_slice() == "is-cyclic\n".as_bytes());
    Ok(())
}
