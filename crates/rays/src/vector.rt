// Vectors of three doubles.
ghost use Rattle.std.specs.Prelude.{◌≡◌, ◌&&◌};
ghost use Rattle.rays.specs.Vectors.{dot_of, cross_of, plus_of, minus_of, scale_of, divide_of, negate_of, norm_of, has_direction_of, normalize_of, is_finite_vec_of, is_finite_with_of};

#[repr(C)]
#[derive(Clone, Copy)]
pub struct Vec3 {
    pub x: f64,
    pub y: f64,
    pub z: f64,
}

impl Vec3 {
    // A vector of at most this length has no direction.
    pub const MIN_LENGTH: f64 = 1e-15;

    #[tactic(auto, unfolding(crate::specs::Vectors::dot_of))]
    pub fn dot(self, b: Vec3) -> f64
        ensures { result ≡ dot_of self b }
    {
        self.x * b.x + self.y * b.y + self.z * b.z
    }

    #[tactic(auto, unfolding(crate::specs::Vectors::cross_of))]
    pub fn cross(self, b: Vec3) -> Vec3
        ensures { result ≡ cross_of self b }
    {
        Vec3 {
            x: self.y * b.z - self.z * b.y,
            y: self.z * b.x - self.x * b.z,
            z: self.x * b.y - self.y * b.x,
        }
    }

    #[tactic(auto, unfolding(crate::specs::Vectors::plus_of))]
    pub fn plus(self, b: Vec3) -> Vec3
        ensures { result ≡ plus_of self b }
    {
        Vec3 {
            x: self.x + b.x,
            y: self.y + b.y,
            z: self.z + b.z,
        }
    }

    #[tactic(auto, unfolding(crate::specs::Vectors::minus_of))]
    pub fn minus(self, b: Vec3) -> Vec3
        ensures { result ≡ minus_of self b }
    {
        Vec3 {
            x: self.x - b.x,
            y: self.y - b.y,
            z: self.z - b.z,
        }
    }

    // Each part times k.
    #[tactic(auto, unfolding(crate::specs::Vectors::scale_of))]
    pub fn scale(self, k: f64) -> Vec3
        ensures { result ≡ scale_of self k }
    {
        Vec3 {
            x: self.x * k,
            y: self.y * k,
            z: self.z * k,
        }
    }

    // Each part divided by k.
    #[tactic(auto, unfolding(crate::specs::Vectors::divide_of))]
    pub fn divide(self, k: f64) -> Vec3
        ensures { result ≡ divide_of self k }
    {
        Vec3 {
            x: self.x / k,
            y: self.y / k,
            z: self.z / k,
        }
    }

    #[tactic(auto, unfolding(crate::specs::Vectors::negate_of))]
    pub fn negate(self) -> Vec3
        ensures { result ≡ negate_of self }
    {
        Vec3 {
            x: -self.x,
            y: -self.y,
            z: -self.z,
        }
    }

    // The length.
    #[tactic(auto, unfolding(crate::specs::Vectors::norm_of))]
    pub fn norm(self) -> f64
        ensures { result ≡ norm_of self }
    {
        doubles::sqrt(self.dot(self))
    }

    // Whether the length is above 1e-15 and finite.
    #[tactic(auto, unfolding(crate::specs::Vectors::has_direction_of))]
    pub fn has_direction(self) -> bool
        ensures { result ≡ has_direction_of self }
    {
        let length = self.norm();
        if length > Vec3::MIN_LENGTH {
            return doubles::is_finite(length);
        }
        false
    }

    // Each part divided by the length.
    #[tactic(auto, unfolding(crate::specs::Vectors::normalize_of))]
    pub fn normalize(self) -> Vec3
        ensures { result ≡ normalize_of self }
    {
        self.divide(self.norm())
    }

    // Whether all three parts are finite. A part less itself is 0 if it is, and else not a number.
    #[tactic(auto, using(crate::proofs::Finite::all_finite), unfolding(crate::specs::Vectors::is_finite_vec_of))]
    pub fn is_finite(self) -> bool
        ensures { result ≡ is_finite_vec_of self }
    {
        (self.x - self.x) + (self.y - self.y) + (self.z - self.z) == 0.0
    }

    // Whether all three parts and two numbers are finite, by one test.
    #[tactic(auto, using(crate::proofs::Finite::five_finite))]
    pub fn is_finite_with(self, a: f64, b: f64) -> bool
        ensures { result ≡ is_finite_with_of self a b }
    {
        (self.x - self.x) + (self.y - self.y) + (self.z - self.z) + ((a - a) + (b - b)) == 0.0
    }
}
