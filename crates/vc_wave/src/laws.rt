ghost use Rattle.std.specs.Prelude.{IsTrue, ◌≡◌, ◌-◌, ◌^◌, ◌<◌, ℕ, pos, ◌-ℤ◌};
ghost use Rattle.vc_types.specs.declared.video.Component.{Component};
ghost use Rattle.vc_types.specs.Subbands.{plane_width, plane_height, plane_depth, padded_width};
ghost use Rattle.vc_types.specs.Subbands.{padded_height};
ghost use Rattle.vc_types.specs.TransformParameters.{Parameters, is_symmetric};
ghost use Rattle.vc_types.specs.Transforms.{Cells, inverse_transform, forward_transform};

/// The inverse transform of the coefficients that the forward transform makes of a plane is that plane, less
/// half of its samples' range, on the plane's own cells; cells outside the padded size have no part in it.
pub fn inverse_undoes_forward()
    ensures { (p : Parameters) (c : Component) (samples : ℕ → ℕ → ℕ) (coefficients : Cells)
        → IsTrue (is_symmetric p)
        → ((x y : ℕ) → x < padded_width p c → y < padded_height p c
        → coefficients x y ≡ forward_transform p c samples x y) → (x y : ℕ)
        → x < plane_width p.shape c → y < plane_height p.shape c
        → inverse_transform p c coefficients x y
        ≡ (pos (samples x y) -ℤ pos (2 ^ (plane_depth p.shape c - 1))) }
{}
