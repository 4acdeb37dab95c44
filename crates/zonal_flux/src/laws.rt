//! What holds of a printed flux, each as the contract of a function that does nothing.

ghost use Rattle.zonal_flux.specs.Laws.{EvenLampSendsSphere, FluxTextIsRight, RoundedHoldsExact, ZonesMakeHalfSpheres};

/// The constants of the zones below the level plane add up to half a sphere, 2 pi, and so do those of the zones above it.
pub fn zones_make_half_spheres()
    ensures { ZonesMakeHalfSpheres }
{}

/// A lamp that shines evenly by so many candela sends 4 pi times as many lumens: its flux meets them at every depth.
pub fn even_lamp_sends_sphere()
    ensures { EvenLampSendsSphere }
{}

/// The exact table of a file lies within the table that the program keeps of it.
pub fn rounded_holds_exact()
    ensures { RoundedHoldsExact }
{}

/// The printed intervals meet the fluxes of the file's table at every depth, lie no further outside of those of the program's table
/// than the allowance and a hundredth of a lumen, and the verdict is that on the printed total.
pub fn flux_text_is_right()
    ensures { FluxTextIsRight }
{}
