//! Texts that several crates of tests read or expect: designs, scripts and reports.
#![tactic(auto)]

/// A design without a library and without a top.
pub const EMPTY: &str =
    "(edif e\n (edifVersion 2 0 0)\n (edifLevel 0)\n (keywordMap (keywordLevel 0)))\n";

/// A counter, as a synthesis tool writes it, with keywords in other cases: no net joins bit 0 of its output.
pub const COUNTER: &str = "(edif counter
 (edifversion 2 0 0)
 (edifLevel 0)
 (keywordmap (keywordlevel 0))
 (status (written (timeStamp 2024 03 09 08 05 00) (program \"synth\" (version \"1.0\")) (comment \"built for test\")))
 (Library hdi_primitives
  (edifLevel 0)
  (technology (numberDefinition ))
  (cell LUT1 (celltype GENERIC)
   (view netlist (viewtype NETLIST)
    (interface (port O (direction OUTPUT)) (port I0 (direction INPUT)))))
  (cell FDRE (celltype GENERIC)
   (view netlist (viewtype NETLIST)
    (interface (port Q (direction OUTPUT)) (port C (direction INPUT)) (port D (direction INPUT))))))
 (Library work
  (edifLevel 0)
  (technology (numberDefinition ))
  (cell counter (celltype GENERIC)
   (view counter (viewtype NETLIST)
    (interface (port clk (direction INPUT)) (port (array (rename q \"q[1:0]\") 2) (direction OUTPUT)))
    (contents
     (instance (rename q_reg_0_ \"q_reg[0]\") (viewref netlist (cellref FDRE (libraryref hdi_primitives))) (property INIT (string \"1'b0\")))
     (instance q_i_1 (viewref netlist (cellref LUT1 (libraryref hdi_primitives))) (property INIT (string \"2'h1\")))
     (net clk (joined (portref C (instanceref q_reg_0_)) (portref clk)))
     (net (rename q_0_ \"q[0]\") (joined (portref I0 (instanceref q_i_1)) (portref Q (instanceref q_reg_0_)) (portref (member q 1))))
     (net p_0_in (joined (portref D (instanceref q_reg_0_)) (portref O (instanceref q_i_1))))))))
 (comment \"Reference To The Cell Of Highest Level\")
 (design counter (cellref counter (libraryref work)) (property part (string \"xc7a35t\"))))
";

/// Two bits of a bridge are one net, which leads to the lamp in a socket; no pin drives it.
pub const FEEDTHROUGH: &str =
    "(edif e (edifVersion 2 0 0) (edifLevel 0) (keywordMap (keywordLevel 0))
 (library w (edifLevel 0) (technology)
  (cell P (cellType GENERIC) (view v (viewType NETLIST) (interface (port a (direction INPUT)))))
  (cell F (cellType GENERIC) (view v (viewType NETLIST)
   (interface (port p (direction INOUT)) (port q (direction INOUT)))
   (contents (net x (joined (portRef p) (portRef q))))))
  (cell V (cellType GENERIC) (view v (viewType NETLIST)
   (interface (port r (direction INOUT)))
   (contents
    (instance l (viewRef v (cellRef P)))
    (net y (joined (portRef r) (portRef a (instanceRef l)))))))
  (cell T (cellType GENERIC) (view v (viewType NETLIST)
   (interface)
   (contents
    (instance u (viewRef v (cellRef F)))
    (instance v (viewRef v (cellRef V)))
    (net X (joined (portRef p (instanceRef u))))
    (net Y (joined (portRef q (instanceRef u)) (portRef r (instanceRef v))))))))
 (design T (cellRef T (libraryRef w))))
";

/// A driver in each of two boxes and one beside them; ports without a direction, arrays, and ports of the top.
pub const LEVELS: &str = "(edif e (edifVersion 2 0 0) (edifLevel 0) (keywordMap (keywordLevel 0))
 (library w (edifLevel 0) (technology)
  (cell G (cellType GENERIC) (view v (viewType NETLIST)
   (interface (port y (direction OUTPUT)) (port (array a 2) (direction INPUT)))))
  (cell N (cellType GENERIC) (view v (viewType NETLIST) (interface (port n))))
  (cell B (cellType GENERIC) (view v (viewType NETLIST)
   (interface (port o (direction OUTPUT)))
   (contents
    (instance g (viewRef v (cellRef G)))
    (net loose (joined (portRef (member a 1) (instanceRef g))))
    (net inner (joined (portRef o) (portRef y (instanceRef g)))))))
  (cell T (cellType GENERIC) (view v (viewType NETLIST)
   (interface (port i (direction INPUT)) (port unused (direction INPUT)) (port o (direction OUTPUT)))
   (contents
    (instance b (viewRef v (cellRef B)))
    (instance c (viewRef v (cellRef B)))
    (instance g (viewRef v (cellRef G)))
    (instance n (viewRef v (cellRef N)))
    (net alone (joined (portRef o)))
    (net bus (joined (portRef o (instanceRef b)) (portRef o (instanceRef c)) (portRef y (instanceRef g))))
    (net fed (joined (portRef i) (portRef (member a 0) (instanceRef g))))
    (net told (joined (portRef n (instanceRef n)) (portRef (member a 1) (instanceRef g))))))))
 (design T (cellRef T (libraryRef w))))
";

/// A block, one of whose nets joins two of its ports and so two nets of the top, and a leaf beside it; its lamps are pads.
pub const BOARD: &str = "(edif e (edifVersion 2 0 0) (edifLevel 0) (keywordMap (keywordLevel 0))
 (library w (edifLevel 0) (technology)
  (cell P (cellType GENERIC) (view v (viewType NETLIST) (interface (port a (direction INOUT)))))
  (cell C (cellType GENERIC) (view v (viewType NETLIST)
   (interface (port p (direction INOUT)) (port q (direction INOUT)) (port r (direction INOUT)))
   (contents
    (instance j (viewRef v (cellRef P)))
    (instance k (viewRef v (cellRef P)))
    (net m (joined (portRef p) (portRef q) (portRef a (instanceRef j))))
    (net s (joined (portRef a (instanceRef k)))))))
  (cell T (cellType GENERIC) (view v (viewType NETLIST)
   (interface)
   (contents
    (instance i (viewRef v (cellRef C)))
    (instance i_j (viewRef v (cellRef P)))
    (net X (joined (portRef p (instanceRef i))))
    (net Y (joined (portRef q (instanceRef i)) (portRef a (instanceRef i_j))))
    (net Z (joined (portRef r (instanceRef i))))))))
 (design T (cellRef T (libraryRef w))))
";

/// The text of a design, in which the copy of a block is the last cell of its library, and is written before the top, which places it.
pub const OUT_OF_ORDER: &str = "(edif e
 (edifVersion 2 0 0)
 (edifLevel 0)
 (keywordMap (keywordLevel 0))
 (library w
  (edifLevel 0)
  (technology (numberDefinition))
  (cell LUT (cellType GENERIC)
   (view v (viewType NETLIST)
    (interface)))
  (cell B (cellType GENERIC)
   (view v (viewType NETLIST)
    (interface)
    (contents
     (instance u2 (viewRef v (cellRef LUT (libraryRef w))) (property INIT (string \"0\"))))))
  (cell B_u1 (cellType GENERIC)
   (view v (viewType NETLIST)
    (interface)
    (contents
     (instance u2 (viewRef v (cellRef LUT (libraryRef w))) (property INIT (string \"0\"))))))
  (cell T (cellType GENERIC)
   (view v (viewType NETLIST)
    (interface)
    (contents
     (instance u1 (viewRef v (cellRef B (libraryRef w))))
     (instance u3 (viewRef v (cellRef B_u1 (libraryRef w))))))))
 (design T (cellRef T (libraryRef w))
  (userData netdb_note (path u1 u2) (property INIT (string \"1\")))))
";

/// A leaf and the top that places it, without a leaf that nothing uses.
pub const SPARE_USED: &str = "(edif e
 (edifVersion 2 0 0)
 (edifLevel 0)
 (keywordMap (keywordLevel 0))
 (library w
  (edifLevel 0)
  (technology (numberDefinition))
  (cell P (cellType GENERIC)
   (view v (viewType NETLIST)
    (interface)))
  (cell T (cellType GENERIC)
   (view v (viewType NETLIST)
    (interface)
    (contents
     (instance a (viewRef v (cellRef P (libraryRef w))))))))
 (design T (cellRef T (libraryRef w))))
";

/// Two cells with nothing in them, and one that places both.
pub const PAIR: &str = "(edif e (edifVersion 2 0 0) (edifLevel 0) (keywordMap (keywordLevel 0))
 (library w (edifLevel 0) (technology)
  (cell A (cellType GENERIC) (view v (viewType NETLIST) (interface) (contents)))
  (cell B (cellType GENERIC) (view v (viewType NETLIST) (interface) (contents)))
  (cell T (cellType GENERIC) (view v (viewType NETLIST)
   (interface)
   (contents (instance a (viewRef v (cellRef A))) (instance b (viewRef v (cellRef B)))))))
 (design T (cellRef T (libraryRef w))))
";

/// A script that adds a net to the first cell of the pair.
pub const FIRST: &str = "begin\nadd-net w A n\ncommit\n";

/// A script that adds a net to the second cell.
pub const SECOND: &str = "begin\nadd-net w B m\ncommit\n";

/// A script that walks the last version.
pub const WALKING: &str = "pin\nwalk\nrelease\n";

/// The report of these three scripts on the pair: two add a net each, to different cells, while the third walks the first version.
pub const JOINT_REPORT: &str = "history
0 caller 2 pin -> pin 0 version 0
1 caller 0 pin -> pin 1 version 0
2 caller 1 pin -> pin 2 version 0
3 caller 1 commit pin 2 -> committed 1
 add-net w B m -> done
4 caller 1 release pin 2 -> released
5 caller 0 commit pin 1 -> committed 2
 add-net w A n -> done
6 caller 0 release pin 1 -> released
7 caller 2 release pin 0 -> released
script 0
begin 0
done
committed 2
script 1
begin 0
done
committed 1
script 2
pin 0
inst / w T
inst /a w A
inst /b w B
end
released
design
(edif e
 (edifVersion 2 0 0)
 (edifLevel 0)
 (keywordMap (keywordLevel 0))
 (library w
  (edifLevel 0)
  (technology (numberDefinition))
  (cell A (cellType GENERIC)
   (view v (viewType NETLIST)
    (interface)
    (contents
     (net n (joined)))))
  (cell B (cellType GENERIC)
   (view v (viewType NETLIST)
    (interface)
    (contents
     (net m (joined)))))
  (cell T (cellType GENERIC)
   (view v (viewType NETLIST)
    (interface)
    (contents
     (instance a (viewRef v (cellRef A (libraryRef w))))
     (instance b (viewRef v (cellRef B (libraryRef w))))))))
 (design T (cellRef T (libraryRef w))))
";

/// The history of the same calls with the first two pins in the other order.
pub const RENUMBERED: &str = "history
0 caller 0 pin -> pin 0 version 0
1 caller 2 pin -> pin 1 version 0
2 caller 1 pin -> pin 2 version 0
3 caller 1 commit pin 2 -> committed 1
 add-net w B m -> done
4 caller 1 release pin 2 -> released
5 caller 0 commit pin 0 -> committed 2
 add-net w A n -> done
6 caller 0 release pin 0 -> released
7 caller 2 release pin 1 -> released
";

/// The report of two scripts that set one property of the pair. The first one meets a conflict, and its block is run again.
pub const RETRIED_REPORT: &str = "history
0 caller 0 pin -> pin 0 version 0
1 caller 1 pin -> pin 1 version 0
2 caller 1 commit pin 1 -> committed 1
 set-prop w A cell K int 2 -> done
3 caller 1 release pin 1 -> released
4 caller 0 commit pin 0 -> conflict interface w A version 1
 set-prop w A cell K int 1
5 caller 0 release pin 0 -> released
6 caller 0 pin -> pin 2 version 1
7 caller 0 commit pin 2 -> committed 2
 set-prop w A cell K int 1 -> done
8 caller 0 release pin 2 -> released
script 0
begin 0
done
conflict interface w A version 1
begin 1
done
committed 2
script 1
begin 0
done
committed 1
design
(edif e
 (edifVersion 2 0 0)
 (edifLevel 0)
 (keywordMap (keywordLevel 0))
 (library w
  (edifLevel 0)
  (technology (numberDefinition))
  (cell A (cellType GENERIC)
   (property K (integer 1))
   (view v (viewType NETLIST)
    (interface)
    (contents)))
  (cell B (cellType GENERIC)
   (view v (viewType NETLIST)
    (interface)
    (contents)))
  (cell T (cellType GENERIC)
   (view v (viewType NETLIST)
    (interface)
    (contents
     (instance a (viewRef v (cellRef A (libraryRef w))))
     (instance b (viewRef v (cellRef B (libraryRef w))))))))
 (design T (cellRef T (libraryRef w))))
";
