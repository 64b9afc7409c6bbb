//! The designs, as texts.

/// Both bits of a bus go into a block, and are one net outside: in the block one leads to the second gate, the other to the first and the
/// third; a second block of the same cell is not joined.
pub static TWICE: &str = "(edif e (edifVersion 2 0 0) (edifLevel 0) (keywordMap (keywordLevel 0))
 (library w (edifLevel 0) (technology)
  (cell G (cellType GENERIC) (view v (viewType NETLIST) (interface (port a (direction INPUT)) (port y (direction OUTPUT)))))
  (cell B (cellType GENERIC) (view v (viewType NETLIST)
   (interface (port (array d 2) (direction INPUT)))
   (contents
    (instance g0 (viewRef v (cellRef G)))
    (instance g1 (viewRef v (cellRef G)))
    (instance g2 (viewRef v (cellRef G)))
    (net m (joined (portRef (member d 0)) (portRef a (instanceRef g1))))
    (net n (joined (portRef (member d 1)) (portRef a (instanceRef g0)) (portRef a (instanceRef g2)))))))
  (cell T (cellType GENERIC) (view v (viewType NETLIST)
   (interface (port i (direction INPUT)))
   (contents
    (instance b (viewRef v (cellRef B)))
    (instance c (viewRef v (cellRef B)))
    (net t (joined (portRef i) (portRef (member d 0) (instanceRef b)) (portRef (member d 1) (instanceRef b))))))))
 (design d (cellRef T (libraryRef w))))
";

/// Three levels; identifiers that differ in case alone, and such as begin alike.
pub static DEEP: &str = "(edif e (edifVersion 2 0 0) (edifLevel 0) (keywordMap (keywordLevel 0))
 (library w (edifLevel 0) (technology)
  (cell P (cellType GENERIC) (view v (viewType NETLIST) (interface (port a (direction INPUT)))))
  (cell A (cellType GENERIC) (view v (viewType NETLIST)
   (interface)
   (contents
    (instance x (viewRef v (cellRef P)))
    (instance p (viewRef v (cellRef P))))))
  (cell B (cellType GENERIC) (view v (viewType NETLIST)
   (interface)
   (contents
    (instance b2 (viewRef v (cellRef A)))
    (instance b10 (viewRef v (cellRef A)))
    (instance a_1 (viewRef v (cellRef A))))))
  (cell T (cellType GENERIC) (view v (viewType NETLIST)
   (interface)
   (contents
    (instance u (viewRef v (cellRef B)))
    (instance U (viewRef v (cellRef A)))
    (instance t (viewRef v (cellRef P)))))))
 (design T (cellRef T (libraryRef w))))
";

/// A design without a top.
pub static EMPTY: &str = "(edif e (edifVersion 2 0 0) (edifLevel 0) (keywordMap (keywordLevel 0)))
";
