//! Designs that scripts edit, the scripts, and what is to be reported of them.

/// Cells of their own for all occurrences, and then a walk.
pub const UNIQUIFY: &str = "begin\nuniquify\ncommit\npin\nwalk\n";

/// The history and the transcript of a block with a note that is placed twice: the second place gets a copy, and the walk is as
/// before but for its name.
pub const NOTED_COPIED: &str = "history
0 caller 0 pin -> pin 0 version 0
1 caller 0 commit pin 0 -> committed 1
 uniquify -> copies 1
2 caller 0 release pin 0 -> released
3 caller 0 pin -> pin 1 version 1
4 caller 0 release pin 1 -> released
script 0
begin 0
copies 1
committed 1
pin 1
inst / w T
inst /u1 w B
inst /u1/u2 w LUT INIT=\"1\"
inst /u3 w B_u1
inst /u3/u2 w LUT INIT=\"0\"
end
";

/// A block placed three times; the first name that a copy would get is taken, but for the case of its letters.
pub const THRICE: &str = "(edif e (edifVersion 2 0 0) (edifLevel 0) (keywordMap (keywordLevel 0))
 (library w (edifLevel 0) (technology)
  (cell C (cellType GENERIC) (view v (viewType NETLIST) (interface) (contents)))
  (cell C_U1 (cellType GENERIC) (view v (viewType NETLIST) (interface) (contents)))
  (cell T (cellType GENERIC) (view v (viewType NETLIST)
   (interface)
   (contents (instance a (viewRef v (cellRef C))) (instance b (viewRef v (cellRef C))) (instance c (viewRef v (cellRef C)))))))
 (design T (cellRef T (libraryRef w))))
";

/// The history and the transcript of it, with the next two names.
pub const THRICE_COPIED: &str = "history
0 caller 0 pin -> pin 0 version 0
1 caller 0 commit pin 0 -> committed 1
 uniquify -> copies 2
2 caller 0 release pin 0 -> released
3 caller 0 pin -> pin 1 version 1
4 caller 0 release pin 1 -> released
script 0
begin 0
copies 2
committed 1
pin 1
inst / w T
inst /a w C
inst /b w C_u2
inst /c w C_u3
end
";

/// The design then.
pub const THRICE_COPIED_TEXT: &str = "(edif e
 (edifVersion 2 0 0)
 (edifLevel 0)
 (keywordMap (keywordLevel 0))
 (library w
  (edifLevel 0)
  (technology (numberDefinition))
  (cell C (cellType GENERIC)
   (view v (viewType NETLIST)
    (interface)
    (contents)))
  (cell C_U1 (cellType GENERIC)
   (view v (viewType NETLIST)
    (interface)
    (contents)))
  (cell C_u2 (cellType GENERIC)
   (view v (viewType NETLIST)
    (interface)
    (contents)))
  (cell C_u3 (cellType GENERIC)
   (view v (viewType NETLIST)
    (interface)
    (contents)))
  (cell T (cellType GENERIC)
   (view v (viewType NETLIST)
    (interface)
    (contents
     (instance a (viewRef v (cellRef C (libraryRef w))))
     (instance b (viewRef v (cellRef C_u2 (libraryRef w))))
     (instance c (viewRef v (cellRef C_u3 (libraryRef w))))))))
 (design T (cellRef T (libraryRef w))))
";

/// A block in a library, and a leaf in a later one; there is no top.
pub const TOPLESS: &str = "(edif e (edifVersion 2 0 0) (edifLevel 0) (keywordMap (keywordLevel 0))
 (library w (edifLevel 0) (technology)
  (cell T (cellType GENERIC) (view v (viewType NETLIST) (interface) (contents))))
 (library z (edifLevel 0) (technology)
  (cell Q (cellType GENERIC) (view v (viewType NETLIST) (interface)))))
";

/// An instance of a cell of a later library, and cells of their own below no top.
pub const REFUSED: &str = "begin\nadd-inst w T q z Q\nuniquify\nunique-path q\ncommit\n";

/// The history and the transcript: each is refused.
pub const TOPLESS_REFUSED: &str = "history
0 caller 0 pin -> pin 0 version 0
1 caller 0 commit pin 0 -> committed 1
 add-inst w T q z Q -> later-library
 uniquify -> no-top
 unique-path q -> no-top
2 caller 0 release pin 0 -> released
script 0
begin 0
later-library
no-top
no-top
committed 1
";

/// The design then, which is as it was.
pub const TOPLESS_TEXT: &str = "(edif e
 (edifVersion 2 0 0)
 (edifLevel 0)
 (keywordMap (keywordLevel 0))
 (library w
  (edifLevel 0)
  (technology (numberDefinition))
  (cell T (cellType GENERIC)
   (view v (viewType NETLIST)
    (interface)
    (contents))))
 (library z
  (edifLevel 0)
  (technology (numberDefinition))
  (cell Q (cellType GENERIC)
   (view v (viewType NETLIST)
    (interface)))))
";

/// The instance that holds the note is dissolved.
pub const UNGROUP_NOTED: &str = "begin\nungroup w T u1\ncommit\npin\nwalk\n";

/// The history and the transcript of it: the leaf has a name and a path of its own, and the value of its note.
pub const NOTED_DISSOLVED: &str = "history
0 caller 0 pin -> pin 0 version 0
1 caller 0 commit pin 0 -> committed 1
 ungroup w T u1 -> done
2 caller 0 release pin 0 -> released
3 caller 0 pin -> pin 1 version 1
4 caller 0 release pin 1 -> released
script 0
begin 0
done
committed 1
pin 1
inst / w T
inst /u1_u2 w LUT INIT=\"1\"
inst /u3 w B
inst /u3/u2 w LUT INIT=\"0\"
end
";

/// The design then.
pub const NOTED_DISSOLVED_TEXT: &str = "(edif e
 (edifVersion 2 0 0)
 (edifLevel 0)
 (keywordMap (keywordLevel 0))
 (library w
  (edifLevel 0)
  (technology (numberDefinition))
  (cell LUT (cellType GENERIC)
   (view v (viewType NETLIST)
    (interface)))
  (cell B (cellType GENERIC)
   (view v (viewType NETLIST)
    (interface)
    (contents
     (instance u2 (viewRef v (cellRef LUT (libraryRef w))) (property INIT (string \"0\"))))))
  (cell T (cellType GENERIC)
   (view v (viewType NETLIST)
    (interface)
    (contents
     (instance (rename u1_u2 \"u1/u2\") (viewRef v (cellRef LUT (libraryRef w))) (property INIT (string \"0\")))
     (instance u3 (viewRef v (cellRef B (libraryRef w))))))))
 (design T (cellRef T (libraryRef w))
  (userData netdb_note (path u1_u2) (property INIT (string \"1\")))))
";

/// The block is dissolved, between a walk of the version before and one of the version behind.
pub const UNGROUP_BOARD: &str =
    "pin\nwalk\nrelease\nbegin\nungroup w T i\ncommit\npin\nwalk\nrelease\n";

/// The history and the transcript of it: each pin of a leaf has the net that its net became.
pub const BOARD_DISSOLVED: &str = "history
0 caller 0 pin -> pin 0 version 0
1 caller 0 release pin 0 -> released
2 caller 0 pin -> pin 1 version 0
3 caller 0 commit pin 1 -> committed 1
 ungroup w T i -> done
4 caller 0 release pin 1 -> released
5 caller 0 pin -> pin 2 version 1
6 caller 0 release pin 2 -> released
script 0
pin 0
inst / w T
net / X / X
net / Y / X
net / Z / Z
inst /i w C
net /i m / X
net /i s /i s
inst /i/j w P
pin /i/j a 0 / X
inst /i/k w P
pin /i/k a 0 /i s
inst /i_j w P
pin /i_j a 0 / X
end
released
begin 0
done
committed 1
pin 1
inst / w T
net / X / X
net / Z / Z
net / i_s / i_s
inst /i_j_1 w P
pin /i_j_1 a 0 / X
inst /i_k w P
pin /i_k a 0 / i_s
inst /i_j w P
pin /i_j a 0 / X
end
released
";

/// The design then.
pub const BOARD_DISSOLVED_TEXT: &str = "(edif e
 (edifVersion 2 0 0)
 (edifLevel 0)
 (keywordMap (keywordLevel 0))
 (library w
  (edifLevel 0)
  (technology (numberDefinition))
  (cell P (cellType GENERIC)
   (view v (viewType NETLIST)
    (interface
     (port a (direction INOUT)))))
  (cell C (cellType GENERIC)
   (view v (viewType NETLIST)
    (interface
     (port p (direction INOUT))
     (port q (direction INOUT))
     (port r (direction INOUT)))
    (contents
     (instance j (viewRef v (cellRef P (libraryRef w))))
     (instance k (viewRef v (cellRef P (libraryRef w))))
     (net m (joined (portRef p) (portRef q) (portRef a (instanceRef j))))
     (net s (joined (portRef a (instanceRef k)))))))
  (cell T (cellType GENERIC)
   (view v (viewType NETLIST)
    (interface)
    (contents
     (instance (rename i_j_1 \"i/j\") (viewRef v (cellRef P (libraryRef w))))
     (instance (rename i_k \"i/k\") (viewRef v (cellRef P (libraryRef w))))
     (instance i_j (viewRef v (cellRef P (libraryRef w))))
     (net X (joined (portRef a (instanceRef i_j)) (portRef a (instanceRef i_j_1))))
     (net Z (joined))
     (net (rename i_s \"i/s\") (joined (portRef a (instanceRef i_k))))))))
 (design T (cellRef T (libraryRef w))))
";

/// Each operation, done and refused, in one transaction, and then a walk.
pub const OPERATIONS: &str = "begin
show-cell x T
show-cell w Q
show-cell w T
show-net w T N
show-net w T Y
show-inst w T z
show-inst w T i
add-cell w p leaf
add-cell w D empty a:in b:out:4
add-net w P n
add-net w T x
add-net w T n
drop-net w T n
drop-net w T n
add-inst w C t w T
add-inst w T d w D
join w T X z a 0
join w T X d c 0
join w T X d b 4
join w T X i_j a 0
cut w T i_j a 0
cut w T i_j a 0
join w T X i_j a 0
drop-inst w T d
drop-inst w T d
set-prop w T net X K true
set-prop w T net N K true
set-note i/j K int 1
set-note i/zz K int 1
drop-note i/j K
drop-note i/j K
unique-path i
unique-path i/zz
uniquify
ungroup w T i_j
ungroup w T i
commit
pin
walk
";

/// The history and the transcript of them on the board.
pub const BOARD_EDITED: &str = "history
0 caller 0 pin -> pin 0 version 0
1 caller 0 commit pin 0 -> committed 1
 show-cell x T -> no-lib
 show-cell w Q -> no-cell
 show-cell w T -> cell ports 0 insts 2 nets 3
 show-net w T N -> no-net
 show-net w T Y -> ends i q 0; i_j a 0
 show-inst w T z -> no-inst
 show-inst w T i -> inst w C
 add-cell w p leaf -> taken
 add-cell w D empty a:in b:out:4 -> done
 add-net w P n -> is-leaf
 add-net w T x -> taken
 add-net w T n -> done
 drop-net w T n -> done
 drop-net w T n -> no-net
 add-inst w C t w T -> is-cyclic
 add-inst w T d w D -> done
 join w T X z a 0 -> no-inst
 join w T X d c 0 -> no-port
 join w T X d b 4 -> bad-bit 4
 join w T X i_j a 0 -> already-joined Y
 cut w T i_j a 0 -> done
 cut w T i_j a 0 -> not-joined
 join w T X i_j a 0 -> done
 drop-inst w T d -> done
 drop-inst w T d -> no-inst
 set-prop w T net X K true -> done
 set-prop w T net N K true -> no-net
 set-note i/j K int 1 -> done
 set-note i/zz K int 1 -> no-path
 drop-note i/j K -> done
 drop-note i/j K -> no-note
 unique-path i -> copies 1
 unique-path i/zz -> no-path
 uniquify -> copies 0
 ungroup w T i_j -> is-leaf
 ungroup w T i -> done
2 caller 0 release pin 0 -> released
3 caller 0 pin -> pin 1 version 1
4 caller 0 release pin 1 -> released
script 0
begin 0
no-lib
no-cell
cell ports 0 insts 2 nets 3
no-net
ends i q 0; i_j a 0
no-inst
inst w C
taken
done
is-leaf
taken
done
done
no-net
is-cyclic
done
no-inst
no-port
bad-bit 4
already-joined Y
done
not-joined
done
done
no-inst
done
no-net
done
no-path
done
no-note
copies 1
no-path
copies 0
is-leaf
done
committed 1
pin 1
inst / w T
net / X / X
net / Z / Z
net / i_s / i_s
inst /i_j_1 w P
pin /i_j_1 a 0 / X
inst /i_k w P
pin /i_k a 0 / i_s
inst /i_j w P
pin /i_j a 0 / X
end
";

/// The design then: the new cell and the copy that was dissolved are the last ones.
pub const BOARD_EDITED_TEXT: &str = "(edif e
 (edifVersion 2 0 0)
 (edifLevel 0)
 (keywordMap (keywordLevel 0))
 (library w
  (edifLevel 0)
  (technology (numberDefinition))
  (cell P (cellType GENERIC)
   (view v (viewType NETLIST)
    (interface
     (port a (direction INOUT)))))
  (cell C (cellType GENERIC)
   (view v (viewType NETLIST)
    (interface
     (port p (direction INOUT))
     (port q (direction INOUT))
     (port r (direction INOUT)))
    (contents
     (instance j (viewRef v (cellRef P (libraryRef w))))
     (instance k (viewRef v (cellRef P (libraryRef w))))
     (net m (joined (portRef p) (portRef q) (portRef a (instanceRef j))))
     (net s (joined (portRef a (instanceRef k)))))))
  (cell T (cellType GENERIC)
   (view v (viewType NETLIST)
    (interface)
    (contents
     (instance (rename i_j_1 \"i/j\") (viewRef v (cellRef P (libraryRef w))))
     (instance (rename i_k \"i/k\") (viewRef v (cellRef P (libraryRef w))))
     (instance i_j (viewRef v (cellRef P (libraryRef w))))
     (net X (joined (portRef a (instanceRef i_j)) (portRef a (instanceRef i_j_1))) (property K (boolean (true))))
     (net Z (joined))
     (net (rename i_s \"i/s\") (joined (portRef a (instanceRef i_k)))))))
  (cell D (cellType GENERIC)
   (view netlist (viewType NETLIST)
    (interface
     (port a (direction INPUT))
     (port (array b 4) (direction OUTPUT)))
    (contents)))
  (cell C_u1 (cellType GENERIC)
   (view v (viewType NETLIST)
    (interface
     (port p (direction INOUT))
     (port q (direction INOUT))
     (port r (direction INOUT)))
    (contents
     (instance j (viewRef v (cellRef P (libraryRef w))))
     (instance k (viewRef v (cellRef P (libraryRef w))))
     (net m (joined (portRef p) (portRef q) (portRef a (instanceRef j))))
     (net s (joined (portRef a (instanceRef k))))))))
 (design T (cellRef T (libraryRef w))))
";
