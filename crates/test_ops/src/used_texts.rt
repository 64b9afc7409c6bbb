//! Designs as texts.

/// A leaf that nothing uses, one that the top uses, and the top.
pub const SMALL: &str =
    "(edif e (edifVersion 2 0 0) (edifLevel 0) (keywordMap (keywordLevel 0)) (library w (edifLevel 0) (technology (numberDefinition)) (cell Q (cellType GENERIC) (view v (viewType NETLIST) (interface))) (cell P (cellType GENERIC) (view v (viewType NETLIST) (interface))) (cell T (cellType GENERIC) (view v (viewType NETLIST) (interface) (contents (instance a (viewRef v (cellRef P))))))) (design T (cellRef T (libraryRef w))))";

/// A block with two leaves of one cell, a block that nothing uses and that has the only instance of another leaf, and a top with the
/// first block twice and a leaf; a note is for a leaf in the second one.
pub const LARGE: &str =
    "(edif e (edifVersion 2 0 0) (edifLevel 0) (keywordMap (keywordLevel 0)) (library p (edifLevel 0) (technology (numberDefinition)) (cell BUF (cellType GENERIC) (view v (viewType NETLIST) (interface))) (cell INV (cellType GENERIC) (view v (viewType NETLIST) (interface (port a (direction INOUT)))))) (library w (edifLevel 0) (technology (numberDefinition)) (cell A (cellType GENERIC) (view v (viewType NETLIST) (interface (port p (direction INOUT))) (contents (instance i (viewRef v (cellRef INV (libraryRef p)))) (instance j (viewRef v (cellRef INV (libraryRef p)))) (net n (joined (portRef p) (portRef a (instanceRef i))))))) (cell B (cellType GENERIC) (view v (viewType NETLIST) (interface) (contents (instance a (viewRef v (cellRef A))) (instance b (viewRef v (cellRef BUF (libraryRef p))))))) (cell T (cellType GENERIC) (view v (viewType NETLIST) (interface) (contents (instance x (viewRef v (cellRef A))) (instance k (viewRef v (cellRef INV (libraryRef p)))) (instance y (viewRef v (cellRef A))) (net m (joined (portRef p (instanceRef x)) (portRef a (instanceRef k)))))))) (library z (edifLevel 0) (technology (numberDefinition)) (cell Z (cellType GENERIC) (view v (viewType NETLIST) (interface) (contents (instance b (viewRef v (cellRef B (libraryRef w)))))))) (design T (cellRef T (libraryRef w)) (userData netdb_note (path y j) (property K (string \"1\")))))";

/// A design without a top.
pub const TOPLESS: &str =
    "(edif e (edifVersion 2 0 0) (edifLevel 0) (keywordMap (keywordLevel 0)) (library w (edifLevel 0) (technology (numberDefinition)) (cell Q (cellType GENERIC) (view v (viewType NETLIST) (interface)))))";
