//! The design of the tests.

/// A leaf with a port, and a top with an instance of it whose port is on a net.
pub(crate) const PAIR: &str =
    "(edif f (edifVersion 2 0 0) (edifLevel 0) (keywordMap (keywordLevel 0)) (library w (edifLevel 0) (technology (numberDefinition)) (cell L (cellType GENERIC) (view v (viewType NETLIST) (interface (port a (direction INOUT))))) (cell T (cellType GENERIC) (view v (viewType NETLIST) (interface) (contents (instance i (viewRef v (cellRef L))) (net n (joined (portRef a (instanceRef i)))))))) (design T (cellRef T (libraryRef w))))";

/// The same with no top.
pub(crate) const NO_TOP: &str =
    "(edif f (edifVersion 2 0 0) (edifLevel 0) (keywordMap (keywordLevel 0)) (library w (edifLevel 0) (technology (numberDefinition)) (cell L (cellType GENERIC) (view v (viewType NETLIST) (interface (port a (direction INOUT)))))))";
