ghost use Rattle.std.specs.Prelude.{◌≡◌, length};
ghost use Rattle.image.specs.Layout.{image_length};
ghost use Rattle.coprocessor.specs.Images.{image_of, save_refusal, saved};

use crate::Coprocessor;
use image::laying::lay;
use image::layout::BYTES;
use parts::refusals::Refusal;

impl Coprocessor {
    // Lays the image of any record into a buffer of its length.
    #[tactic(auto, unfolding(crate::specs::Images::image_of))]
    pub fn save_known(self, buffer: &mut [u8])
        requires { length buffer.old ≡ image_length }
        ensures { buffer.new ≡ image_of self }
    {
        lay(
            self.size,
            self.maps,
            self.registers,
            self.drawing,
            buffer.as_mut_array().unwrap(),
        );
    }

    // Lays the image into a buffer of its length; a refused save leaves the buffer as it was.
    #[tactic(auto, unfolding(crate::specs::Images::saves, crate::specs::Images::save_refusal, crate::specs::Images::saved))]
    pub fn save(self, buffer: &mut [u8]) -> Result<(), Refusal>
        ensures value { result ≡ save_refusal self buffer.old }
        ensures buffer_after { buffer.new ≡ saved self buffer.old }
    {
        if buffer.len() != BYTES {
            return Err(Refusal::Image);
        }
        if !self.is_valid() {
            return Err(Refusal::Image);
        }
        self.save_known(buffer);
        Ok(())
    }
}
