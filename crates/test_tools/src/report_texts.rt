//! Designs, scripts and reports, as texts.

/// A row of two stages.
pub const STAGES: &str =
    "(edif stages (edifVersion 2 0 0) (edifLevel 0) (keywordMap (keywordLevel 0))
  (external cells (edifLevel 0) (technology (numberDefinition))
    (cell INV (cellType GENERIC) (view netlist (viewType NETLIST) (interface
      (port A (direction INPUT)) (port Y (direction OUTPUT)))))
    (cell BUF (cellType GENERIC) (view netlist (viewType NETLIST) (interface
      (port A (direction INPUT)) (port Y (direction OUTPUT))))))
  (library work (edifLevel 0) (technology (numberDefinition))
    (cell stage (cellType GENERIC) (view netlist (viewType NETLIST)
      (interface (port A (direction INPUT)) (port Y (direction OUTPUT)))
      (contents
        (instance i (viewRef netlist (cellRef INV (libraryRef cells))))
        (net a (joined (portRef A) (portRef A (instanceRef i))))
        (net y (joined (portRef Y (instanceRef i)) (portRef Y))))))
    (cell top (cellType GENERIC) (view netlist (viewType NETLIST)
      (interface (port A (direction INPUT)) (port Y (direction OUTPUT)))
      (contents
        (instance s0 (viewRef netlist (cellRef stage)))
        (instance s1 (viewRef netlist (cellRef stage)))
        (net a (joined (portRef A) (portRef A (instanceRef s0))))
        (net m (joined (portRef Y (instanceRef s0)) (portRef A (instanceRef s1))))
        (net y (joined (portRef Y (instanceRef s1)) (portRef Y)))))))
  (design stages (cellRef top (libraryRef work))))
";

/// A script on the stages.
pub const BUFFER: &str = "# puts a buffer behind the inverter of each stage
begin retry 3
add-inst work stage b cells BUF
cut work stage i Y 0
add-net work stage n
join work stage n i Y 0
join work stage n b A 0
join work stage y b Y 0
commit
";

/// A script on the stages.
pub const MARK: &str =
    "# a size for the inverter of each stage, and another one for that of the first
begin retry 3
set-prop work stage inst i SIZE int 2
set-note s0/i SIZE int 4
commit
";

/// A script on the stages.
pub const LOOK: &str =
    "# looks at the version that is the last one, whatever others commit meanwhile, and drops what nobody holds
pin
walk limit 8
release
collect
";

/// The report of a run of the three scripts on the stages.
pub const STAGES_REPORT: &str = "history
0 caller 2 pin -> pin 0 version 0
1 caller 0 pin -> pin 1 version 0
2 caller 0 commit pin 1 -> committed 1
 add-inst work stage b cells BUF -> done
 cut work stage i Y 0 -> done
 add-net work stage n -> done
 join work stage n i Y 0 -> done
 join work stage n b A 0 -> done
 join work stage y b Y 0 -> done
3 caller 0 release pin 1 -> released
4 caller 1 pin -> pin 2 version 1
5 caller 1 commit pin 2 -> committed 2
 set-prop work stage inst i SIZE int 2 -> done
 set-note s0/i SIZE int 4 -> done
6 caller 1 release pin 2 -> released
7 caller 2 release pin 0 -> released
8 caller 2 collect -> collected 2
script 0
begin 0
done
done
done
done
done
done
committed 1
script 1
begin 1
done
done
committed 2
script 2
pin 0
inst / work top
net / a / a
net / m / m
net / y / y
pin / A 0 / a
pin / Y 0 / y
inst /s0 work stage
net /s0 a / a
more
released
collected 2
design
(edif stages
 (edifVersion 2 0 0)
 (edifLevel 0)
 (keywordMap (keywordLevel 0))
 (external cells
  (edifLevel 0)
  (technology (numberDefinition))
  (cell INV (cellType GENERIC)
   (view netlist (viewType NETLIST)
    (interface
     (port A (direction INPUT))
     (port Y (direction OUTPUT)))))
  (cell BUF (cellType GENERIC)
   (view netlist (viewType NETLIST)
    (interface
     (port A (direction INPUT))
     (port Y (direction OUTPUT))))))
 (library work
  (edifLevel 0)
  (technology (numberDefinition))
  (cell stage (cellType GENERIC)
   (view netlist (viewType NETLIST)
    (interface
     (port A (direction INPUT))
     (port Y (direction OUTPUT)))
    (contents
     (instance i (viewRef netlist (cellRef INV (libraryRef cells))) (property SIZE (integer 2)))
     (instance b (viewRef netlist (cellRef BUF (libraryRef cells))))
     (net a (joined (portRef A) (portRef A (instanceRef i))))
     (net y (joined (portRef Y) (portRef Y (instanceRef b))))
     (net n (joined (portRef Y (instanceRef i)) (portRef A (instanceRef b)))))))
  (cell top (cellType GENERIC)
   (view netlist (viewType NETLIST)
    (interface
     (port A (direction INPUT))
     (port Y (direction OUTPUT)))
    (contents
     (instance s0 (viewRef netlist (cellRef stage (libraryRef work))))
     (instance s1 (viewRef netlist (cellRef stage (libraryRef work))))
     (net a (joined (portRef A) (portRef A (instanceRef s0))))
     (net m (joined (portRef Y (instanceRef s0)) (portRef A (instanceRef s1))))
     (net y (joined (portRef Y (instanceRef s1)) (portRef Y)))))))
 (design stages (cellRef top (libraryRef work))
  (userData netdb_note (path s0 i) (property SIZE (integer 4)))))
";

/// A block that commits a text with a byte that is spelled by its code. Its lines end as on some systems, in two bytes.
pub const SPELLED: &str = "begin\r\nset-prop w A cell K str \"a%37%b\"\r\ncommit\r\n";

/// Versions that are kept no longer, or are not there yet.
pub const WANTING: &str = "collect\npin-at 0\nwalk\nrelease\npin-at 5\nwalk limit 2\nrelease\n";

/// A block that is abandoned, and one in which the script ends.
pub const UNFINISHED: &str = "begin\nadd-net w A n\nabandon\nbegin\nadd-net w B m\n";

/// A pin that is held at the end.
pub const GLANCE: &str = "pin\nwalk limit 1\n";

/// The report of these scripts on the pair, the last one twice.
pub const ENDS_REPORT: &str = "history
0 caller 0 pin -> pin 0 version 0
1 caller 0 commit pin 0 -> committed 1
 set-prop w A cell K str \"a%37%b\" -> done
2 caller 0 release pin 0 -> released
3 caller 1 collect -> collected 1
4 caller 1 pin-at 0 -> gone 1
5 caller 1 pin-at 5 -> no-version 1
6 caller 2 pin -> pin 1 version 1
7 caller 2 release pin 1 -> released
8 caller 4 pin -> pin 2 version 1
9 caller 3 pin -> pin 3 version 1
10 caller 2 pin -> pin 4 version 1
11 caller 2 release pin 4 -> released
12 caller 4 release pin 2 -> released
13 caller 3 release pin 3 -> released
script 0
begin 0
done
committed 1
script 1
collected 1
gone 1
no-pin
no-pin
no-version 1
no-pin
no-pin
script 2
begin 1
done
abandoned
begin 1
done
script 3
pin 1
inst / w T
more
script 4
pin 1
inst / w T
more
design
(edif e
 (edifVersion 2 0 0)
 (edifLevel 0)
 (keywordMap (keywordLevel 0))
 (library w
  (edifLevel 0)
  (technology (numberDefinition))
  (cell A (cellType GENERIC)
   (property K (string \"a%37%b\"))
   (view v (viewType NETLIST)
    (interface)
    (contents)))
  (cell B (cellType GENERIC)
   (view v (viewType NETLIST)
    (interface)
    (contents)))
  (cell T (cellType GENERIC)
   (view v (viewType NETLIST)
    (interface)
    (contents
     (instance a (viewRef v (cellRef A (libraryRef w))))
     (instance b (viewRef v (cellRef B (libraryRef w))))))))
 (design T (cellRef T (libraryRef w))))
";
