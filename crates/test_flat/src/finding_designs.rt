//! The designs, as texts, and what is written of them.

/// A design, and the lines of its findings: none where it has no top.
pub struct Case {
    pub design: &'static str,
    pub lines: Option<&'static str>,
}

/// A counter, as a synthesis tool writes it: nothing is wrong with it, though no net joins one bit of its output.
pub static COUNTER: Case = Case {
    design: test_texts::COUNTER,
    lines: Some("end\n"),
};

/// Two bits of a bridge are one net, which leads to the lamp in a socket; no pin drives it.
pub static FEEDTHROUGH: Case = Case {
    design: test_texts::FEEDTHROUGH,
    lines: Some("undriven / X\nend\n"),
};

/// Pads drive the nets at which they are; a port of a cell that has contents is no pin.
pub static PADS: Case = Case {
    design: test_texts::BOARD,
    lines: Some("undriven / Z\nend\n"),
};

/// Two outputs at one net, and an input at none.
pub static CLASH: Case = Case {
    design: "(edif e (edifVersion 2 0 0) (edifLevel 0) (keywordMap (keywordLevel 0))
 (library w (edifLevel 0) (technology)
  (cell G (cellType GENERIC) (view v (viewType NETLIST)
   (interface (port y (direction OUTPUT)) (port a (direction INPUT)))))
  (cell T (cellType GENERIC) (view v (viewType NETLIST)
   (interface)
   (contents
    (instance g (viewRef v (cellRef G)))
    (instance h (viewRef v (cellRef G)))
    (net n (joined (portRef y (instanceRef g)) (portRef y (instanceRef h)) (portRef a (instanceRef g))))))))
 (design T (cellRef T (libraryRef w))))
",
    lines: Some("many / n 2\nopen /h a 0\nend\n"),
};

/// A driver in each of two boxes and one beside them; ports without a direction, arrays, and ports of the top.
pub static LEVELS: Case = Case {
    design: test_texts::LEVELS,
    lines: Some(
        "undriven / alone\nmany / bus 3\nundriven /b loose\nundriven /c loose\nopen /b/g a 0\nopen /c/g a 0\nend\n",
    ),
};

/// A net without ends, and boxes: what has contents, be they empty, has no pins, and what has none is a leaf.
pub static BOXES: Case = Case {
    design: "(edif e (edifVersion 2 0 0) (edifLevel 0) (keywordMap (keywordLevel 0))
 (library w (edifLevel 0) (technology)
  (cell E (cellType GENERIC) (view v (viewType NETLIST)
   (interface (port a (direction INPUT)) (port y (direction OUTPUT)))
   (contents)))
  (cell L (cellType GENERIC) (view v (viewType NETLIST)
   (interface (port a (direction INPUT)) (port y (direction OUTPUT)))))
  (cell T (cellType GENERIC) (view v (viewType NETLIST)
   (interface (port o (direction OUTPUT)))
   (contents
    (instance e (viewRef v (cellRef E)))
    (instance l (viewRef v (cellRef L)))
    (instance m (viewRef v (cellRef L)))
    (net bare (joined))
    (net in (joined (portRef a (instanceRef e))))
    (net out (joined (portRef y (instanceRef e)) (portRef a (instanceRef l))))
    (net led (joined (portRef y (instanceRef l)) (portRef o)))))))
 (design T (cellRef T (libraryRef w))))
",
    lines: Some("undriven / bare\nundriven / in\nundriven / out\nopen /m a 0\nend\n"),
};

/// The top is a leaf: its pins are those of the top, of which none is told.
pub static LEAF: Case = Case {
    design: "(edif e (edifVersion 2 0 0) (edifLevel 0) (keywordMap (keywordLevel 0))
 (library w (edifLevel 0) (technology)
  (cell L (cellType GENERIC) (view v (viewType NETLIST)
   (interface (port a (direction INPUT)) (port y (direction OUTPUT))))))
 (design L (cellRef L (libraryRef w))))
",
    lines: Some("end\n"),
};

/// Two drivers of one net, between them a tower of 2047 occurrences with a net each, which has a driver.
pub static TOWER: Case = Case {
    design: "(edif e (edifVersion 2 0 0) (edifLevel 0) (keywordMap (keywordLevel 0))
 (library w (edifLevel 0) (technology)
  (cell G (cellType GENERIC) (view v (viewType NETLIST)
   (interface (port y (direction OUTPUT)) (port a (direction INPUT)))))
  (cell e (cellType GENERIC) (view v (viewType NETLIST)
   (interface (port o (direction OUTPUT)))
   (contents
    (instance g (viewRef v (cellRef G)))
    (net lone (joined))
    (net out (joined (portRef o) (portRef y (instanceRef g)) (portRef a (instanceRef g)))))))
  (cell t0 (cellType GENERIC) (view v (viewType NETLIST)
   (interface)
   (contents
    (instance g (viewRef v (cellRef G)))
    (net n (joined (portRef y (instanceRef g)) (portRef a (instanceRef g)))))))
  (cell t1 (cellType GENERIC) (view v (viewType NETLIST)
   (interface)
   (contents
    (instance a (viewRef v (cellRef t0)))
    (instance b (viewRef v (cellRef t0)))
    (instance g (viewRef v (cellRef G)))
    (net n (joined (portRef y (instanceRef g)) (portRef a (instanceRef g)))))))
  (cell t2 (cellType GENERIC) (view v (viewType NETLIST)
   (interface)
   (contents
    (instance a (viewRef v (cellRef t1)))
    (instance b (viewRef v (cellRef t1)))
    (instance g (viewRef v (cellRef G)))
    (net n (joined (portRef y (instanceRef g)) (portRef a (instanceRef g)))))))
  (cell t3 (cellType GENERIC) (view v (viewType NETLIST)
   (interface)
   (contents
    (instance a (viewRef v (cellRef t2)))
    (instance b (viewRef v (cellRef t2)))
    (instance g (viewRef v (cellRef G)))
    (net n (joined (portRef y (instanceRef g)) (portRef a (instanceRef g)))))))
  (cell t4 (cellType GENERIC) (view v (viewType NETLIST)
   (interface)
   (contents
    (instance a (viewRef v (cellRef t3)))
    (instance b (viewRef v (cellRef t3)))
    (instance g (viewRef v (cellRef G)))
    (net n (joined (portRef y (instanceRef g)) (portRef a (instanceRef g)))))))
  (cell t5 (cellType GENERIC) (view v (viewType NETLIST)
   (interface)
   (contents
    (instance a (viewRef v (cellRef t4)))
    (instance b (viewRef v (cellRef t4)))
    (instance g (viewRef v (cellRef G)))
    (net n (joined (portRef y (instanceRef g)) (portRef a (instanceRef g)))))))
  (cell t6 (cellType GENERIC) (view v (viewType NETLIST)
   (interface)
   (contents
    (instance a (viewRef v (cellRef t5)))
    (instance b (viewRef v (cellRef t5)))
    (instance g (viewRef v (cellRef G)))
    (net n (joined (portRef y (instanceRef g)) (portRef a (instanceRef g)))))))
  (cell t7 (cellType GENERIC) (view v (viewType NETLIST)
   (interface)
   (contents
    (instance a (viewRef v (cellRef t6)))
    (instance b (viewRef v (cellRef t6)))
    (instance g (viewRef v (cellRef G)))
    (net n (joined (portRef y (instanceRef g)) (portRef a (instanceRef g)))))))
  (cell t8 (cellType GENERIC) (view v (viewType NETLIST)
   (interface)
   (contents
    (instance a (viewRef v (cellRef t7)))
    (instance b (viewRef v (cellRef t7)))
    (instance g (viewRef v (cellRef G)))
    (net n (joined (portRef y (instanceRef g)) (portRef a (instanceRef g)))))))
  (cell t9 (cellType GENERIC) (view v (viewType NETLIST)
   (interface)
   (contents
    (instance a (viewRef v (cellRef t8)))
    (instance b (viewRef v (cellRef t8)))
    (instance g (viewRef v (cellRef G)))
    (net n (joined (portRef y (instanceRef g)) (portRef a (instanceRef g)))))))
  (cell t10 (cellType GENERIC) (view v (viewType NETLIST)
   (interface)
   (contents
    (instance a (viewRef v (cellRef t9)))
    (instance b (viewRef v (cellRef t9)))
    (instance g (viewRef v (cellRef G)))
    (net n (joined (portRef y (instanceRef g)) (portRef a (instanceRef g)))))))
  (cell T (cellType GENERIC) (view v (viewType NETLIST)
   (interface)
   (contents
    (instance first (viewRef v (cellRef e)))
    (instance tower (viewRef v (cellRef t10)))
    (instance last (viewRef v (cellRef e)))
    (net bus (joined (portRef o (instanceRef first)) (portRef o (instanceRef last))))))))
 (design T (cellRef T (libraryRef w))))
",
    lines: Some("many / bus 2\nundriven /first lone\nundriven /last lone\nend\n"),
};

/// No top.
pub static EMPTY: Case = Case {
    design: "(edif e (edifVersion 2 0 0) (edifLevel 0) (keywordMap (keywordLevel 0)))",
    lines: None,
};
