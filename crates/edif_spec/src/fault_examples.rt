//! Small files, and the fault that stands in each.
ghost use Rattle.std.specs.Prelude.{◌<◌, ℕ, codes};
ghost use Rattle.edif_spec.specs.Examples.{bad_version, bad_level, two_libraries, other_view_type, two_views, port_bundle, large_exponent, joined_twice, later_cell, whole_array, bad_width, high_index, member_again, two_alike, two_designs, no_view, empty_path, many_libraries, many_bits};
ghost use Rattle.edif_spec.specs.Stands.{Stands};
ghost use Rattle.edif_spec.specs.declared.fault.ClashKind.TheVariants.{Duplicate, EndTwice, SecondDesign, SecondView};
ghost use Rattle.edif_spec.specs.declared.fault.Kind.TheVariants.{Ambiguous, BadForm, BadIndex, BadLevel, BadPath, BadVersion, BadWidth, NotNetlist, Unresolved, WholeArray};
ghost use Rattle.edif_spec.specs.declared.fault.MeaningFault.TheVariants.{At, Clash, NotInProfile, OverLimit};

/// In each of the small files of `specs/Examples.antt` the fault stands that its writer meant, at the byte that was counted in
/// its text.
pub fn faults_of_small_files()
    ensures version { Stands bad_version (At BadVersion 25) }
    ensures level { Stands bad_level (At BadLevel 39) }
    ensures libraries { Stands two_libraries (Clash Duplicate 120 81) }
    ensures view_type { Stands other_view_type (At NotNetlist 155) }
    ensures views { Stands two_views (Clash SecondView 177 137) }
    ensures bundle { Stands port_bundle (NotInProfile (codes "portBundle") 175) }
    ensures exponent { Stands large_exponent (At BadForm 201) }
    ensures ends { Stands joined_twice (Clash EndTwice 222 210) }
    ensures cell { Stands later_cell (At Unresolved 218) }
    ensures array { Stands whole_array (At WholeArray 266) }
    ensures width { Stands bad_width (At BadWidth 276) }
    ensures member { Stands member_again (Clash Duplicate 218 198) }
    ensures index { Stands high_index (At BadIndex 276) }
    ensures alike { Stands two_alike (At Ambiguous 230) }
    ensures designs { Stands two_designs (Clash SecondDesign 110 72) }
    ensures leaf { Stands no_view (At BadForm 110) }
    ensures path { Stands empty_path (At BadPath 237) }
{}

/// Limits that are passed, whatever stands behind. In a file of more than 1,024 numbered libraries it is passed at that of number
/// 1,024, counted from 0; in one of more than 16 ports of 65,536 bits each, at the port of number 16, since 16 of them are just
/// the 1,048,576 bits that are allowed.
pub fn faults_of_large_files()
    ensures libraries { (count : ℕ) → 1024 < count → Stands (many_libraries count) (OverLimit 1024 44104) }
    ensures bits { (count : ℕ) → 16 < count → Stands (many_bits count) (OverLimit 1048576 607) }
{}
